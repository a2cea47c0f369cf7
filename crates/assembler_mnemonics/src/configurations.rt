//! A vtype as text has it by names.

ghost use Rattle.std.specs.Prelude.{◌≡◌, ◌<◌, IfSome};
ghost use Rattle.assembler_mnemonics.specs.Configuration as spec;

/// The vtype of four names: the elements' width, how many registers are grouped, and what happens to
/// elements after the last and to those that the mask leaves out. `None` where one is no such name.
#[tactic(auto, unfolding(crate::specs::Configuration::vtype_named))]
pub fn vtype_named(width: &[u8], group: &[u8], tail: &[u8], mask: &[u8]) -> Option<u32>
    ensures value { result ≡ spec.vtype_named width.now group.now tail.now mask.now }
    ensures within { IfSome result (λ vtype. vtype < 256) }
{
    let width = width_named(width)?;
    let group = group_named(group)?;
    let tail = tail_named(tail)?;
    let mask = mask_named(mask)?;
    Some(group + 8 * width + 64 * tail + 128 * mask)
}

// The code of a name, which is its place in the list of names.
#[tactic(auto, unfolding(crate::specs::Configuration::place_in))]
fn width_named(name: &[u8]) -> Option<u32>
    ensures value { result ≡ spec.place_in spec.width_names name.now }
    ensures within { IfSome result (λ code. code < 3) }
{
    match name {
        b"e8" => Some(0),
        b"e16" => Some(1),
        b"e32" => Some(2),
        _ => None,
    }
}

#[tactic(auto, unfolding(crate::specs::Configuration::place_in))]
fn group_named(name: &[u8]) -> Option<u32>
    ensures value { result ≡ spec.place_in spec.group_names name.now }
    ensures within { IfSome result (λ code. code < 3) }
{
    match name {
        b"m1" => Some(0),
        b"m2" => Some(1),
        b"m4" => Some(2),
        _ => None,
    }
}

#[tactic(auto, unfolding(crate::specs::Configuration::place_in))]
fn tail_named(name: &[u8]) -> Option<u32>
    ensures value { result ≡ spec.place_in spec.tail_names name.now }
    ensures within { IfSome result (λ code. code < 2) }
{
    match name {
        b"tu" => Some(0),
        b"ta" => Some(1),
        _ => None,
    }
}

#[tactic(auto, unfolding(crate::specs::Configuration::place_in))]
fn mask_named(name: &[u8]) -> Option<u32>
    ensures value { result ≡ spec.place_in spec.mask_names name.now }
    ensures within { IfSome result (λ code. code < 2) }
{
    match name {
        b"mu" => Some(0),
        b"ma" => Some(1),
        _ => None,
    }
}
