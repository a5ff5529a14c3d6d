// A result, handed out as its number and, where there is one, its value. An entry that sets more than one number matches by itself: of what a
// closure sets, nothing is known after `map`, and a function with `?` would state the whole contract once more.
ghost use Rattle.rlnc.specs.Given.{Given};

use answers::RLNCError;

pub(crate) fn give<T: Copy>(found: Result<T, RLNCError>, into: &mut T) -> u8
    ensures { Given found into.old result into.new }
{
    match found {
        Ok(x) => {
            *into = x;
            0
        }
        Err(e) => e.number(),
    }
}
