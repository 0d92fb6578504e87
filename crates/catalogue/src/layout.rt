// The layout of a module: what its record says of its rows.

// The module's kind, and how many inputs and outputs it has; 0 where its kind has a fixed number of rows.
#[derive(Clone, Copy)]
pub struct Layout {
    pub kind: u8,
    pub inputs: u8,
    pub outputs: u8,
}
