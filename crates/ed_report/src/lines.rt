ghost use Rattle.std.specs.Prelude.{◌≡◌, ◌<◌, ◌++◌, All, IfOk, string_bytes};
ghost use Rattle.ed_report.specs.Listings.{listing, listing_line};

use ed_orders::order_text;
use ed_store::Store;
use ed_words::NoMemory;
use std::alloc::Global;

/// A line for each of the locations: its address, its word as a number, and its word as an order.
pub fn listing(alloc: Global, store: &Store, places: &[u16]) -> Result<Vec<u8>, NoMemory>
    requires { All (λ a. a < 1024) places.now }
    ensures { IfOk result (λ bytes. bytes.items ≡ listing store.now places.now) }
{
    let mut lines = String::new(alloc);
    for place in places {
        write_line(&mut lines, store, *place)?;
    }
    Ok(lines.into_bytes())
}

/// Writes the line of a location.
fn write_line(lines: &mut String, store: &Store, place: u16) -> Result<(), NoMemory>
    requires { place < 1024 }
    ensures { IfOk result (λ _. string_bytes lines.new ≡ string_bytes lines.old ++ listing_line store.now place) }
{
    let word = store.short(place);
    let value = word.value();
    let order = order_text(word);
    let text = order.as_str();
    Ok(write!(lines, "{place:4} {value:6} {text}\n")?)
}
