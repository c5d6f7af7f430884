// 02, T-01, "Lost tags": which objects may stand in an answer.
ghost use Rattle.std.specs.Prelude.{◌≡◌};
ghost use Rattle.theory.specs.LostTags.{may_answer};

use crate::limits::{FIRST_LOST_TAG, LAST_LOST_TAG};

// Whether the object may stand in an answer: it is no lost tag.
pub fn may_answer(object: u64) -> bool
    ensures { result ≡ may_answer object }
{
    object < FIRST_LOST_TAG || LAST_LOST_TAG < object
}
