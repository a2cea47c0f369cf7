//! The target description.

ghost use Rattle.std.specs.Prelude.{◌≡◌, ◌++◌, ◌<◌, codes, OnOk};
ghost use Rattle.std.specs.Fmt.{decimal};
ghost use Rattle.std.specs.String.{string_bytes};
ghost use Rattle.gdb_texts.specs.Texts as spec;

use crate::elements::{push_attribute, push_end, push_number, push_tag};
use std::alloc::AllocError;

/// Appends the target description: the registers of a hart.
#[tactic(auto, unfolding(crate::specs::Texts::description))]
pub fn push_description(text: &mut String) -> Result<(), AllocError>
    ensures { OnOk result (string_bytes text.new ≡ string_bytes text.old ++ spec.description) }
{
    push_opening(text)?;
    push_machine(text)?;
    push_cpu(text)?;
    push_vector_feature(text)?;
    push_csr(text)?;
    push_tag(text, "/target")?;
    Ok(())
}

/// The integer registers and the pc.
#[tactic(auto, unfolding(crate::specs::Texts::cpu))]
fn push_cpu(text: &mut String) -> Result<(), AllocError>
    ensures { OnOk result (string_bytes text.new ≡ string_bytes text.old ++ spec.cpu) }
{
    push_feature(text, "cpu")?;
    push_integers(text)?;
    push_word(text, "pc", "code_ptr", 32)?;
    push_tag(text, "/feature")?;
    Ok(())
}

/// The vector registers and their types.
#[tactic(auto, unfolding(crate::specs::Texts::vectors))]
fn push_vector_feature(text: &mut String) -> Result<(), AllocError>
    ensures { OnOk result (string_bytes text.new ≡ string_bytes text.old ++ spec.vectors) }
{
    push_feature(text, "vector")?;
    push_vector_types(text)?;
    push_vector_union(text)?;
    push_vectors(text)?;
    push_tag(text, "/feature")?;
    Ok(())
}

/// What vector instructions are set to.
#[tactic(auto, unfolding(crate::specs::Texts::settings))]
fn push_csr(text: &mut String) -> Result<(), AllocError>
    ensures { OnOk result (string_bytes text.new ≡ string_bytes text.old ++ spec.settings) }
{
    push_feature(text, "csr")?;
    push_settings(text)?;
    push_tag(text, "/feature")?;
    Ok(())
}

#[tactic(auto, unfolding(crate::specs::Texts::opening))]
fn push_opening(text: &mut String) -> Result<(), AllocError>
    ensures { OnOk result (string_bytes text.new ≡ string_bytes text.old ++ spec.opening) }
{
    text.push_str(
        "<?xml version=\"1.0\"?>\n<!DOCTYPE target SYSTEM \"gdb-target.dtd\">\n<target version=\"1.0\">\n",
    )?;
    Ok(())
}

#[tactic(auto, unfolding(crate::specs::Texts::machine))]
fn push_machine(text: &mut String) -> Result<(), AllocError>
    ensures { OnOk result (string_bytes text.new ≡ string_bytes text.old ++ spec.machine) }
{
    text.push_str("<architecture>riscv:rv32</architecture>\n<osabi>none</osabi>\n")?;
    Ok(())
}

#[tactic(auto, unfolding(crate::specs::Texts::feature))]
fn push_feature(text: &mut String, name: &str) -> Result<(), AllocError>
    ensures { OnOk result (string_bytes text.new ≡ string_bytes text.old ++ spec.feature name.now) }
{
    text.push_str("<feature name=\"org.gnu.gdb.riscv.")?;
    text.push_str(name)?;
    text.push_str("\">\n")?;
    Ok(())
}

/// All integer registers, a line each.
fn push_integers(text: &mut String) -> Result<(), AllocError>
    ensures { OnOk result (string_bytes text.new ≡ string_bytes text.old ++ spec.integer_lines 32) }
{
    for number in 0..32u64 {
        push_integer(text, number)?;
    }
    Ok(())
}

#[tactic(auto, unfolding(crate::specs::Texts::integer_line))]
fn push_integer(text: &mut String, number: u64) -> Result<(), AllocError>
    requires { number < 32 }
    ensures { OnOk result (string_bytes text.new ≡ string_bytes text.old ++ spec.integer_line number) }
{
    text.push_str("<reg")?;
    push_integer_name(text, number)?;
    push_kind(text, "32", type_of(number), number)?;
    Ok(())
}

#[tactic(auto, unfolding(crate::specs::Texts::attribute))]
fn push_integer_name(text: &mut String, number: u64) -> Result<(), AllocError>
    requires { number < 32 }
    ensures { OnOk result (string_bytes text.new ≡ string_bytes text.old
        ++ spec.attribute (codes "name") (spec.name_of number)) }
{
    text.push_str(" ")?;
    text.push_str("name")?;
    text.push_str("=\"")?;
    push_name(text, number)?;
    text.push_str("\"")?;
    Ok(())
}

/// The register's name.
#[tactic(auto, unfolding(crate::specs::Texts::name_of))]
fn push_name(text: &mut String, number: u64) -> Result<(), AllocError>
    requires { number < 32 }
    ensures { OnOk result (string_bytes text.new ≡ string_bytes text.old ++ spec.name_of number) }
{
    match number {
        0 => text.push_str("zero"),
        1 => text.push_str("ra"),
        2 => text.push_str("sp"),
        3 => text.push_str("gp"),
        4 => text.push_str("tp"),
        8 => text.push_str("fp"),
        9 => text.push_str("s1"),
        0..8 => push_numbered(text, "t", number - 5),
        0..18 => push_numbered(text, "a", number - 10),
        0..28 => push_numbered(text, "s", number - 16),
        _ => push_numbered(text, "t", number - 25),
    }
}

/// A letter and a number.
fn push_numbered(text: &mut String, letter: &str, number: u64) -> Result<(), AllocError>
    ensures { OnOk result (string_bytes text.new ≡ string_bytes text.old ++ (letter.now ++ decimal number)) }
{
    text.push_str(letter)?;
    write!(text, "{number}")?;
    Ok(())
}

/// The type of an integer register.
#[tactic(auto, unfolding(crate::specs::Texts::type_of))]
fn type_of(number: u64) -> &'static str
    ensures { result.now ≡ spec.type_of number }
{
    match number {
        1 => "code_ptr",
        2 | 3 | 4 => "data_ptr",
        _ => "int",
    }
}

/// What follows a register's name.
#[tactic(auto, unfolding(crate::specs::Texts::kind_of))]
fn push_kind(text: &mut String, bits: &str, kind: &str, number: u64) -> Result<(), AllocError>
    ensures { OnOk result (string_bytes text.new ≡ string_bytes text.old ++ spec.kind_of bits.now kind.now number) }
{
    push_attribute(text, "bitsize", bits)?;
    push_attribute(text, "type", kind)?;
    push_number(text, "regnum", number)?;
    push_end(text)?;
    Ok(())
}

/// A register of 32 bits with this name.
#[tactic(auto, unfolding(crate::specs::Texts::word_line))]
fn push_word(text: &mut String, name: &str, kind: &str, number: u64) -> Result<(), AllocError>
    ensures { OnOk result (string_bytes text.new ≡ string_bytes text.old ++ spec.word_line name.now kind.now number) }
{
    text.push_str("<reg")?;
    push_attribute(text, "name", name)?;
    push_kind(text, "32", kind, number)?;
    Ok(())
}

/// The types that a vector register has.
#[tactic(auto, unfolding(crate::specs::Texts::vector_types))]
fn push_vector_types(text: &mut String) -> Result<(), AllocError>
    ensures { OnOk result (string_bytes text.new ≡ string_bytes text.old ++ spec.vector_types) }
{
    push_vector_type(text, "bytes", "uint8", "16")?;
    push_vector_type(text, "shorts", "uint16", "8")?;
    push_vector_type(text, "words", "uint32", "4")?;
    push_vector_type(text, "longs", "uint64", "2")?;
    push_vector_type(text, "quads", "uint128", "1")?;
    Ok(())
}

#[tactic(auto, unfolding(crate::specs::Texts::vector_type))]
fn push_vector_type(text: &mut String, id: &str, kind: &str, count: &str) -> Result<(), AllocError>
    ensures { OnOk result (string_bytes text.new ≡ string_bytes text.old
        ++ spec.vector_type id.now kind.now count.now) }
{
    text.push_str("<vector")?;
    push_attribute(text, "id", id)?;
    push_attribute(text, "type", kind)?;
    push_attribute(text, "count", count)?;
    push_end(text)?;
    Ok(())
}

/// All of these types in one.
#[tactic(auto, unfolding(crate::specs::Texts::vector_union))]
fn push_vector_union(text: &mut String) -> Result<(), AllocError>
    ensures { OnOk result (string_bytes text.new ≡ string_bytes text.old ++ spec.vector_union) }
{
    push_union_start(text)?;
    push_field(text, "b", "bytes")?;
    push_field(text, "s", "shorts")?;
    push_field(text, "w", "words")?;
    push_field(text, "l", "longs")?;
    push_field(text, "q", "quads")?;
    push_tag(text, "/union")?;
    Ok(())
}

#[tactic(auto, unfolding(crate::specs::Texts::union_start))]
fn push_union_start(text: &mut String) -> Result<(), AllocError>
    ensures { OnOk result (string_bytes text.new ≡ string_bytes text.old ++ spec.union_start) }
{
    text.push_str("<union id=\"rvv\">\n")?;
    Ok(())
}

#[tactic(auto, unfolding(crate::specs::Texts::field))]
fn push_field(text: &mut String, name: &str, kind: &str) -> Result<(), AllocError>
    ensures { OnOk result (string_bytes text.new ≡ string_bytes text.old ++ spec.field name.now kind.now) }
{
    text.push_str("<field")?;
    push_attribute(text, "name", name)?;
    push_attribute(text, "type", kind)?;
    push_end(text)?;
    Ok(())
}

/// All vector registers, a line each.
fn push_vectors(text: &mut String) -> Result<(), AllocError>
    ensures { OnOk result (string_bytes text.new ≡ string_bytes text.old ++ spec.vector_lines 32) }
{
    for number in 0..32u64 {
        push_vector(text, number)?;
    }
    Ok(())
}

#[tactic(auto, unfolding(crate::specs::Texts::vector_line))]
fn push_vector(text: &mut String, number: u64) -> Result<(), AllocError>
    requires { number < 32 }
    ensures { OnOk result (string_bytes text.new ≡ string_bytes text.old ++ spec.vector_line number) }
{
    text.push_str("<reg")?;
    push_vector_name(text, number)?;
    push_attribute(text, "group", "vector")?;
    push_kind(text, "128", "rvv", number + 33)?;
    Ok(())
}

#[tactic(auto, unfolding(crate::specs::Texts::attribute, crate::specs::Texts::vector_name))]
fn push_vector_name(text: &mut String, number: u64) -> Result<(), AllocError>
    ensures { OnOk result (string_bytes text.new ≡ string_bytes text.old
        ++ spec.attribute (codes "name") (spec.vector_name number)) }
{
    text.push_str(" ")?;
    text.push_str("name")?;
    text.push_str("=\"")?;
    push_numbered(text, "v", number)?;
    text.push_str("\"")?;
    Ok(())
}

/// vl and vtype.
#[tactic(auto, unfolding(crate::specs::Texts::setting_lines))]
fn push_settings(text: &mut String) -> Result<(), AllocError>
    ensures { OnOk result (string_bytes text.new ≡ string_bytes text.old ++ spec.setting_lines) }
{
    push_word(text, "vl", "int", 65)?;
    push_word(text, "vtype", "int", 66)?;
    Ok(())
}
