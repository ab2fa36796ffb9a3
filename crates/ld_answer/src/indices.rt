// The text of the indices that a position owns.
ghost use Rattle.std.specs.Prelude.{◌≡◌, ◌++◌, IfOk};
ghost use Rattle.ld_answer.specs.Indices.{item, numbers_line};
ghost use Rattle.ld_stripe.specs.Striping.{owned_indices};

use ld_base::{BaseFault, put_number};
use ld_stripe::Stripe;

// Appends the line of the indices below `count` that the position owns.
pub fn put_indices(
    text: &mut Vec<u8>,
    stripe: &Stripe,
    position: usize,
    count: u32,
) -> Result<(), BaseFault>
    ensures { IfOk result (λ _. text.new.items ≡ text.old.items ++ numbers_line (owned_indices stripe.now.owners position count)) }
{
    let mut follows = false;
    for index in 0..count {
        if stripe.owner(index as u64) == position {
            put_item(text, follows, index as u64)?;
            follows = true;
        }
    }
    text.extend_from_slice(b"\n")?;
    Ok(())
}

// Appends a number, behind one space where it follows another.
fn put_item(text: &mut Vec<u8>, follows: bool, number: u64) -> Result<(), BaseFault>
    ensures { IfOk result (λ _. text.new.items ≡ text.old.items ++ item follows number) }
{
    if follows {
        text.extend_from_slice(b" ")?;
    }
    put_number(text, number)
}
