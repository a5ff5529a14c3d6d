// A record of numbers that anyone may have filled in, C among them, and the buffer that is lent beside it at each call: each method looks
// at them first.
#![tactic(auto)]

ghost use Rattle.std.specs.Prelude.{◌≡◌, Bool, ℕ, not, length, Ok, Err};
ghost use Rattle.answers.specs.declared.RLNCError.TheVariants.{BadState};
ghost use Rattle.linear.specs.Choice.{pick};

use answers::{Answer, RLNCError};

pub trait Judged: Copy {
    ghost sound: { Self → Bool };

    ghost bad_state: { Self → ℕ → Bool };

    // The record's numbers are good.
    fn is_sound(self) -> bool
        ensures { result ≡ sound self };

    // They are, and what it says is lent fits into n bytes.
    fn fits(self, n: usize) -> bool
        ensures { result ≡ not (bad_state self n) };

    // Refused where the record's numbers are bad.
    fn checked(self) -> Answer
        ensures { result ≡ pick (sound self) (Ok tt) (Err BadState) }
    {
        if self.is_sound() {
            Ok(())
        } else {
            Err(RLNCError::BadState)
        }
    }

    // Refused where they are, or where what is lent is shorter than they say.
    fn admit(self, lent: &[u8]) -> Answer
        ensures { result ≡ pick (bad_state self (length lent.now)) (Err BadState) (Ok tt) }
    {
        if self.fits(lent.len()) {
            Ok(())
        } else {
            Err(RLNCError::BadState)
        }
    }
}
