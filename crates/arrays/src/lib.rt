// A whole lent array, copied, whatever its elements are.
#![tactic(auto)]

ghost use Rattle.std.specs.Prelude.{◌≡◌};
ghost use Rattle.arrays.specs.Whole.{copied};

// The elements of another array of equal length; an array of another length stays as it was.
#[tactic(auto, unfolding(crate::specs::Whole::copied))]
pub fn copy<T: Copy>(to: &mut [T], from: &[T])
    ensures { to.new ≡ copied to.old from.now }
{
    if to.len() == from.len() {
        for i in 0..to.len() {
            to[i] = from[i];
        }
    }
}
