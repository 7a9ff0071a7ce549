// Copying from one unit to another, over any two kinds.

ghost use Rattle.unit.specs.Copying.{NoneLost, copied};
ghost use Rattle.std.specs.Prelude.{◌≡◌};

use crate::Unit;

// Moves bytes from `source` to `target` until the one tells end or the other full. No unit
// tells its room, so a target that gets full has been handed one byte too many: the source
// has given that byte, and it is the answer.
pub fn copy<S: Unit, T: Unit>(source: &mut S, target: &mut T) -> Option<u8>
    ensures source { S.Unit.medium source.new ≡ (copied (S.Unit.medium source.old) (T.Unit.medium target.old)).source }
    ensures target { T.Unit.medium target.new ≡ (copied (S.Unit.medium source.old) (T.Unit.medium target.old)).target }
    ensures left_over { result ≡ (copied (S.Unit.medium source.old) (T.Unit.medium target.old)).left_over }
{
    while let Ok(byte) = source.give() {
        if target.take(byte).is_err() {
            return Some(byte);
        }
    }
    None
}

// A copy loses no byte.
pub fn copy_laws()
    ensures { NoneLost }
{}
