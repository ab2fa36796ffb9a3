// Which user is chosen of some.
ghost use Rattle.std.specs.Prelude.{◌≡◌};
ghost use Rattle.ld_course.specs.Chosen.{chosen_of};

use ld_set::NumberSet;

/// The user that is chosen of some, by their numbers: the preferred one, where it is one of them, else the least. None
/// exactly where there are none.
pub fn chosen(users: &NumberSet, prefer: u32) -> Option<u32>
    ensures { result ≡ chosen_of prefer users.now.numbers }
{
    if users.contains(prefer) {
        Some(prefer)
    } else {
        users.least()
    }
}
