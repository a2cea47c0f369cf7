//! The texts against those that gdb 13.1 took.

use gdb_texts::{push_description, push_memory_map, push_piece};
use std::test::Fail;

/// The target description.
const DESCRIPTION: &str = "<?xml version=\"1.0\"?>\n\
    <!DOCTYPE target SYSTEM \"gdb-target.dtd\">\n\
    <target version=\"1.0\">\n\
    <architecture>riscv:rv32</architecture>\n\
    <osabi>none</osabi>\n\
    <feature name=\"org.gnu.gdb.riscv.cpu\">\n\
    <reg name=\"zero\" bitsize=\"32\" type=\"int\" regnum=\"0\"/>\n\
    <reg name=\"ra\" bitsize=\"32\" type=\"code_ptr\" regnum=\"1\"/>\n\
    <reg name=\"sp\" bitsize=\"32\" type=\"data_ptr\" regnum=\"2\"/>\n\
    <reg name=\"gp\" bitsize=\"32\" type=\"data_ptr\" regnum=\"3\"/>\n\
    <reg name=\"tp\" bitsize=\"32\" type=\"data_ptr\" regnum=\"4\"/>\n\
    <reg name=\"t0\" bitsize=\"32\" type=\"int\" regnum=\"5\"/>\n\
    <reg name=\"t1\" bitsize=\"32\" type=\"int\" regnum=\"6\"/>\n\
    <reg name=\"t2\" bitsize=\"32\" type=\"int\" regnum=\"7\"/>\n\
    <reg name=\"fp\" bitsize=\"32\" type=\"int\" regnum=\"8\"/>\n\
    <reg name=\"s1\" bitsize=\"32\" type=\"int\" regnum=\"9\"/>\n\
    <reg name=\"a0\" bitsize=\"32\" type=\"int\" regnum=\"10\"/>\n\
    <reg name=\"a1\" bitsize=\"32\" type=\"int\" regnum=\"11\"/>\n\
    <reg name=\"a2\" bitsize=\"32\" type=\"int\" regnum=\"12\"/>\n\
    <reg name=\"a3\" bitsize=\"32\" type=\"int\" regnum=\"13\"/>\n\
    <reg name=\"a4\" bitsize=\"32\" type=\"int\" regnum=\"14\"/>\n\
    <reg name=\"a5\" bitsize=\"32\" type=\"int\" regnum=\"15\"/>\n\
    <reg name=\"a6\" bitsize=\"32\" type=\"int\" regnum=\"16\"/>\n\
    <reg name=\"a7\" bitsize=\"32\" type=\"int\" regnum=\"17\"/>\n\
    <reg name=\"s2\" bitsize=\"32\" type=\"int\" regnum=\"18\"/>\n\
    <reg name=\"s3\" bitsize=\"32\" type=\"int\" regnum=\"19\"/>\n\
    <reg name=\"s4\" bitsize=\"32\" type=\"int\" regnum=\"20\"/>\n\
    <reg name=\"s5\" bitsize=\"32\" type=\"int\" regnum=\"21\"/>\n\
    <reg name=\"s6\" bitsize=\"32\" type=\"int\" regnum=\"22\"/>\n\
    <reg name=\"s7\" bitsize=\"32\" type=\"int\" regnum=\"23\"/>\n\
    <reg name=\"s8\" bitsize=\"32\" type=\"int\" regnum=\"24\"/>\n\
    <reg name=\"s9\" bitsize=\"32\" type=\"int\" regnum=\"25\"/>\n\
    <reg name=\"s10\" bitsize=\"32\" type=\"int\" regnum=\"26\"/>\n\
    <reg name=\"s11\" bitsize=\"32\" type=\"int\" regnum=\"27\"/>\n\
    <reg name=\"t3\" bitsize=\"32\" type=\"int\" regnum=\"28\"/>\n\
    <reg name=\"t4\" bitsize=\"32\" type=\"int\" regnum=\"29\"/>\n\
    <reg name=\"t5\" bitsize=\"32\" type=\"int\" regnum=\"30\"/>\n\
    <reg name=\"t6\" bitsize=\"32\" type=\"int\" regnum=\"31\"/>\n\
    <reg name=\"pc\" bitsize=\"32\" type=\"code_ptr\" regnum=\"32\"/>\n\
    </feature>\n\
    <feature name=\"org.gnu.gdb.riscv.vector\">\n\
    <vector id=\"bytes\" type=\"uint8\" count=\"16\"/>\n\
    <vector id=\"shorts\" type=\"uint16\" count=\"8\"/>\n\
    <vector id=\"words\" type=\"uint32\" count=\"4\"/>\n\
    <vector id=\"longs\" type=\"uint64\" count=\"2\"/>\n\
    <vector id=\"quads\" type=\"uint128\" count=\"1\"/>\n\
    <union id=\"rvv\">\n\
    <field name=\"b\" type=\"bytes\"/>\n\
    <field name=\"s\" type=\"shorts\"/>\n\
    <field name=\"w\" type=\"words\"/>\n\
    <field name=\"l\" type=\"longs\"/>\n\
    <field name=\"q\" type=\"quads\"/>\n\
    </union>\n\
    <reg name=\"v0\" group=\"vector\" bitsize=\"128\" type=\"rvv\" regnum=\"33\"/>\n\
    <reg name=\"v1\" group=\"vector\" bitsize=\"128\" type=\"rvv\" regnum=\"34\"/>\n\
    <reg name=\"v2\" group=\"vector\" bitsize=\"128\" type=\"rvv\" regnum=\"35\"/>\n\
    <reg name=\"v3\" group=\"vector\" bitsize=\"128\" type=\"rvv\" regnum=\"36\"/>\n\
    <reg name=\"v4\" group=\"vector\" bitsize=\"128\" type=\"rvv\" regnum=\"37\"/>\n\
    <reg name=\"v5\" group=\"vector\" bitsize=\"128\" type=\"rvv\" regnum=\"38\"/>\n\
    <reg name=\"v6\" group=\"vector\" bitsize=\"128\" type=\"rvv\" regnum=\"39\"/>\n\
    <reg name=\"v7\" group=\"vector\" bitsize=\"128\" type=\"rvv\" regnum=\"40\"/>\n\
    <reg name=\"v8\" group=\"vector\" bitsize=\"128\" type=\"rvv\" regnum=\"41\"/>\n\
    <reg name=\"v9\" group=\"vector\" bitsize=\"128\" type=\"rvv\" regnum=\"42\"/>\n\
    <reg name=\"v10\" group=\"vector\" bitsize=\"128\" type=\"rvv\" regnum=\"43\"/>\n\
    <reg name=\"v11\" group=\"vector\" bitsize=\"128\" type=\"rvv\" regnum=\"44\"/>\n\
    <reg name=\"v12\" group=\"vector\" bitsize=\"128\" type=\"rvv\" regnum=\"45\"/>\n\
    <reg name=\"v13\" group=\"vector\" bitsize=\"128\" type=\"rvv\" regnum=\"46\"/>\n\
    <reg name=\"v14\" group=\"vector\" bitsize=\"128\" type=\"rvv\" regnum=\"47\"/>\n\
    <reg name=\"v15\" group=\"vector\" bitsize=\"128\" type=\"rvv\" regnum=\"48\"/>\n\
    <reg name=\"v16\" group=\"vector\" bitsize=\"128\" type=\"rvv\" regnum=\"49\"/>\n\
    <reg name=\"v17\" group=\"vector\" bitsize=\"128\" type=\"rvv\" regnum=\"50\"/>\n\
    <reg name=\"v18\" group=\"vector\" bitsize=\"128\" type=\"rvv\" regnum=\"51\"/>\n\
    <reg name=\"v19\" group=\"vector\" bitsize=\"128\" type=\"rvv\" regnum=\"52\"/>\n\
    <reg name=\"v20\" group=\"vector\" bitsize=\"128\" type=\"rvv\" regnum=\"53\"/>\n\
    <reg name=\"v21\" group=\"vector\" bitsize=\"128\" type=\"rvv\" regnum=\"54\"/>\n\
    <reg name=\"v22\" group=\"vector\" bitsize=\"128\" type=\"rvv\" regnum=\"55\"/>\n\
    <reg name=\"v23\" group=\"vector\" bitsize=\"128\" type=\"rvv\" regnum=\"56\"/>\n\
    <reg name=\"v24\" group=\"vector\" bitsize=\"128\" type=\"rvv\" regnum=\"57\"/>\n\
    <reg name=\"v25\" group=\"vector\" bitsize=\"128\" type=\"rvv\" regnum=\"58\"/>\n\
    <reg name=\"v26\" group=\"vector\" bitsize=\"128\" type=\"rvv\" regnum=\"59\"/>\n\
    <reg name=\"v27\" group=\"vector\" bitsize=\"128\" type=\"rvv\" regnum=\"60\"/>\n\
    <reg name=\"v28\" group=\"vector\" bitsize=\"128\" type=\"rvv\" regnum=\"61\"/>\n\
    <reg name=\"v29\" group=\"vector\" bitsize=\"128\" type=\"rvv\" regnum=\"62\"/>\n\
    <reg name=\"v30\" group=\"vector\" bitsize=\"128\" type=\"rvv\" regnum=\"63\"/>\n\
    <reg name=\"v31\" group=\"vector\" bitsize=\"128\" type=\"rvv\" regnum=\"64\"/>\n\
    </feature>\n\
    <feature name=\"org.gnu.gdb.riscv.csr\">\n\
    <reg name=\"vl\" bitsize=\"32\" type=\"int\" regnum=\"65\"/>\n\
    <reg name=\"vtype\" bitsize=\"32\" type=\"int\" regnum=\"66\"/>\n\
    </feature>\n\
    </target>\n";

#[test]
fn registers_are_told_as_gdb_took_them(rt: HostRuntime) -> Result<(), Fail> {
    let mut text = String::new(rt.alloc());
    push_description(&mut text)?;
    assert_eq!(rt; text.as_str(), DESCRIPTION);
    Ok(())
}

#[test]
fn memory_is_told_as_gdb_took_it(rt: HostRuntime) -> Result<(), Fail> {
    let mut text = String::new(rt.alloc());
    push_memory_map(&mut text, 400, 64)?;
    assert_eq!(rt;
        text.as_str(),
        "<memory-map>\n<memory type=\"rom\" start=\"65536\" length=\"400\"/>\n\
         <memory type=\"ram\" start=\"2097152\" length=\"64\"/>\n</memory-map>\n"
    );
    Ok(())
}

#[test]
fn pieces_say_whether_more_follow(rt: HostRuntime) -> Result<(), Fail> {
    let cases: [(u32, u32, &[u8]); 6] = [
        (0, 2, b"mab"),
        (2, 2, b"mcd"),
        (4, 2, b"le"),
        (3, 2, b"lde"),
        (5, 2, b"l"),
        (9, 2, b"l"),
    ];
    for (offset, count, piece) in cases {
        let mut out = Vec::new(rt.alloc());
        push_piece(&mut out, b"abcde", offset, count)?;
        assert_eq!(rt; out.as_slice(), piece);
    }
    Ok(())
}
