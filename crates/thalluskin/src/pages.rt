// A page in a mode that is not there.
ghost use Rattle.std.specs.Prelude.{◌≡◌};
ghost use Rattle.thalluskin.specs.Pages.{stride_of};

use crate::PageNumbers;
use modes::is_known;

// The line length to draw with. In an unknown mode it is 0, which is outside its limits: so the call itself tests the
// record, and then refuses, and no test is made twice.
pub(crate) fn stride_of(page: PageNumbers) -> usize
    ensures { result ≡ stride_of page }
{
    if is_known(page.mode) {
        return page.stride;
    }
    0
}
