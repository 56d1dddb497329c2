// What the names of a line stand for in a present.
ghost use Rattle.std.specs.Prelude.{◌≡◌, ◌<◌, IfOk, IfSome, MatchOption, is_some, false, true, length, slice_get, Some, IsTrue};
ghost use Rattle.std.specs.List.{list_all, All};
ghost use Rattle.std.specs.Option.{option_map};
ghost use Rattle.circuit_model.specs.Blocks.{pin_named, width_in};
ghost use Rattle.circuit_model.specs.Present.{named_in, net_named, part_named, block_named, block_at, width_of};
ghost use Rattle.netlist_text.specs.Lookups.{widths_at};
ghost use Rattle.netlist_text.specs.Found.{AreNets, ArePins};

use circuit_model::{Name, Named, Present};
use word_domain::Width;

/// Whether a net or a component has the name.
pub fn has_name(present: &Present, name: &Name) -> bool
    ensures { result ≡ is_some (named_in present.now name.now) }
{
    present.find(name).is_some()
}

/// The place of the net with the name.
pub fn net_of(present: &Present, name: &Name) -> Option<u16>
    ensures place { result ≡ net_named present.now name.now }
    ensures within { IfSome result (λ place. place < length present.now.nets) }
{
    match present.find(name) {
        Some(Named::Net(place)) => Some(place),
        Some(Named::Part(_)) | None => None,
    }
}

/// The place of the component with the name. (Nets and components share one set of names.)
pub fn part_of(present: &Present, name: &Name) -> Option<u16>
    ensures place { result ≡ part_named present.now name.now }
    ensures within { IfSome result (λ place. place < length present.now.parts) }
{
    // For the proof alone: the present is lawful, so that no net has a component's name.
    let _nets = present.nets();
    match present.find(name) {
        Some(Named::Part(place)) => Some(place),
        Some(Named::Net(_net)) => None,
        None => None,
    }
}

/// The width of the net at the place.
pub fn width_at(present: &Present, place: u16) -> Width
    requires { place < length present.now.nets }
    ensures { result ≡ width_of present.now place }
{
    present.net_at(place).1
}

/// The places of the nets with the names, where each of them is a net.
pub fn nets_of(present: &Present, names: &[Name; 3]) -> Option<[u16; 3]>
    ensures { MatchOption result (list_all (λ name. is_some (net_named present.now name)) names.now ≡ false) (AreNets present.now names.now) }
{
    let [a, b, z] = names;
    let Some(first) = net_of(present, a) else {
        return None;
    };
    let Some(second) = net_of(present, b) else {
        return None;
    };
    let Some(third) = net_of(present, z) else {
        return None;
    };
    Some([first, second, third])
}

/// The widths of three nets.
pub fn widths_of(present: &Present, places: &[u16; 3]) -> [Width; 3]
    requires { All (λ place. place < length present.now.nets) places.now }
    ensures { result ≡ widths_at present.now places.now }
{
    [
        width_at(present, places[0]),
        width_at(present, places[1]),
        width_at(present, places[2]),
    ]
}
