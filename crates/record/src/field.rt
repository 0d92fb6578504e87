// The label's field of a record: a label, and then zero bytes.
ghost use Rattle.std.specs.Prelude.{◌≡◌};
ghost use Rattle.record.specs.Field.{field_sound, is_zero, label_byte, label_right};
ghost use Rattle.record.specs.Field.Run.{run};
ghost use Rattle.record.specs.Field.Tally.{tally};

// Whether a byte may stand in a label.
#[tactic(auto, using(crate::specs::Field::Rules::labels))]
fn label_byte(b: u8) -> bool
    ensures { result ≡ label_byte b }
{
    0x20 <= b && b <= 0x7E && b != 0x22
}

// Whether a text may be a label.
#[tactic(auto, using(crate::specs::Field::Rules::labels))]
pub fn label_right(text: &[u8]) -> bool
    ensures { result ≡ label_right text.now }
{
    1 <= text.len() && text.len() <= 32 && label_run(text) == text.len()
}

// How many bytes of a field are zero.
#[tactic(auto, using(crate::specs::Field::Tally::tallying))]
fn zero_count(field: &[u8]) -> usize
    ensures { result ≡ tally is_zero field.now }
{
    let mut count = 0;
    for b in field {
        if *b == 0 {
            count += 1;
        }
    }
    count
}

// How many bytes at the beginning of a field may stand in a label.
#[tactic(auto, using(crate::specs::Field::Run::running))]
fn label_run(field: &[u8]) -> usize
    ensures { result ≡ run label_byte field.now }
{
    for (i, b) in field.iter().enumerate() {
        // Most bytes of a label stand above the quote.
        if 0x22 < *b && *b <= 0x7E {
            continue;
        }
        if !label_byte(*b) {
            return i;
        }
    }
    field.len()
}

// Whether a field holds a label and then zero bytes.
#[tactic(auto, using(crate::specs::Field::Run::fields))]
pub fn field_sound(field: &[u8]) -> bool
    ensures { result ≡ field_sound field.now }
{
    let end = label_run(field);
    1 <= end && end <= 32 && zero_count(field) == field.len() - end
}
