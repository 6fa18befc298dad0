ghost use Rattle.std.specs.Prelude.{◌≡◌};
ghost use Rattle.ed_command.specs.Windows.{window, window_named};

use ed_run::Window;
use ed_words::{Size, number};

/// The locations of a text `FROM,COUNT`.
pub(crate) fn window_named(text: &str, size: Size) -> Option<Window>
    ensures { result ≡ window_named size text.now }
{
    match text.split_once(',') {
        Some((first, count)) => window(number(first.as_bytes()), number(count.as_bytes()), size),
        None => None,
    }
}

/// The locations from `first` upwards, `count` of them, if they are at 144 or above and within the store.
fn window(first: Option<u32>, count: Option<u32>, size: Size) -> Option<Window>
    ensures { result ≡ window size first count }
{
    let first = first?;
    let count = count?;
    let most = u32::from(size.value());
    if 144 <= first && first <= most && count <= most - first {
        Some(Window {
            first: first as u16,
            count: count as u16,
        })
    } else {
        None
    }
}
