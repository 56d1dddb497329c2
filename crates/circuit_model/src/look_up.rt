// Finding by name and by place.

ghost use Rattle.std.specs.Prelude.{◌≡◌, ◌≤◌, ◌<◌, ◌^◌, slice_get, Some, IfSome};
ghost use Rattle.std.specs.List.{position};
ghost use Rattle.std.specs.Str.{bytes_eq};
ghost use Rattle.indexmap.specs.IndexMap.{keys, index_map_len};
ghost use Rattle.circuit_model.specs.Tables.{nets_of};
ghost use Rattle.circuit_model.specs.declared.limits.TheConstants.{MOST_NETS};

use crate::name::Name;
use indexmap::IndexMap;
use word_domain::Width;

// The net at the place.
pub(crate) fn net_at(nets: &IndexMap<Name, Width>, place: u16) -> (Name, Width)
    requires { place < index_map_len nets.now }
    ensures { slice_get (nets_of nets.now.entries) place ≡ Some (record { name = result.0; width = result.1 }) }
{
    match nets.get_index(place as usize) {
        Some((name, width)) => (*name, *width),
        None => unreachable!(),
    }
}

// The place of the net with the name.
pub(crate) fn net_named(nets: &IndexMap<Name, Width>, name: &Name) -> Option<u16>
    requires { index_map_len nets.now ≤ MOST_NETS }
    ensures { result ≡ position (λ n. bytes_eq n.name name.now) (nets_of nets.now.entries) }
{
    place_of_name(nets, name)
}

// The place of the name.
pub(crate) fn place_of_name<T>(table: &IndexMap<Name, T>, name: &Name) -> Option<u16>
    requires { index_map_len table.now ≤ 2 ^ 16 }
    ensures { result ≡ position (λ n. bytes_eq n name.now) (keys table.now) }
{
    name_position(table, name).map(|place| place as u16)
}

pub(crate) fn name_position<T>(table: &IndexMap<Name, T>, name: &Name) -> Option<usize>
    ensures place { result ≡ position (λ n. bytes_eq n name.now) (keys table.now) }
    ensures within { IfSome result (λ place. place < index_map_len table.now) }
{
    table.get_index_of(name)
}
