//! Listings with their reports, where a gate holds each unit for a while, so that others work beside it.
use super::together::{Passing, no_question};
use super::{Shape, plain, report, run_listing};
use std::alloc::Global;
use std::process::Abort;
use std::sync::Wait;
use std::sync::atomic::Ordering::SeqCst;
use std::test::*;
use std::thread::Threads;

fn four_units() -> Shape {
    Shape {
        turns: 50_000_000,
        ..plain(4)
    }
}

fn check<R: Threads + Wait + Sync + Abort>(
    rt: &R,
    alloc: Global,
    listing: &str,
    shape: &Shape,
    gate: &Passing,
    expected: &str,
) -> Result<(), Fail> {
    let run = run_listing(rt, alloc, listing.as_bytes(), shape, gate)?;
    let text = report(alloc, &run)?;
    assert!(*rt; text.as_bytes() == expected.as_bytes(), "{listing}{text}");
    Ok(())
}

#[test]
fn listings_have_their_reports_by_several_units(rt: HostRuntime) -> Result<(), Fail> {
    let rows: [(&str, &str); 16] = [
        ("", "stop badpc\ncount 0\npc 0x00400000\n"),
        ("break\n", "stop break\ncount 0\npc 0x00400000\n"),
        (
            "addiu $1,$0,5\naddu $2,$1,$1\nbreak\n",
            "stop break\ncount 2\npc 0x00400008\nr1 0x00000005\nr2 0x0000000a\n",
        ),
        (
            "lui $1,0x7fff\nori $1,$1,0xffff\naddi $2,$1,1\n",
            "stop overflow\ncount 2\npc 0x00400008\nr1 0x7fffffff\n",
        ),
        (
            "sltiu $1,$0,-1\nbreak\n",
            "stop break\ncount 1\npc 0x00400004\nr1 0x00000001\n",
        ),
        (
            "addiu $0,$0,7\naddu $1,$0,$0\nbreak\n",
            "stop break\ncount 2\npc 0x00400008\n",
        ),
        (
            ".space 4\naddiu $1,$0,-1\nsw $1,0($0)\nsb $0,1($0)\nlw $2,0($0)\nbreak\n",
            "stop break\ncount 4\npc 0x00400010\nr1 0xffffffff\nr2 0xffff00ff\nm 0x00000000 0xffff00ff\n",
        ),
        ("lw $1,2($0)\n", "stop unaligned\ncount 0\npc 0x00400000\n"),
        (
            "beq $0,$0,E\nlw $1,1($0)\nE: break\n",
            "stop break\ncount 1\npc 0x00400008\n",
        ),
        (
            "jal F\nbreak\nF: jr $ra\n",
            "stop break\ncount 2\npc 0x00400004\nr31 0x00400004\n",
        ),
        (
            "addiu $1,$0,8\njr $1\n",
            "stop badpc\ncount 2\npc 0x00000008\nr1 0x00000008\n",
        ),
        (
            ".space 65536\nori $2,$0,65532\nsw $2,0($2)\nbreak\n",
            "stop break\ncount 2\npc 0x00400008\nr2 0x0000fffc\nm 0x0000fffc 0x0000fffc\n",
        ),
        (
            ".word 0x80\nlb $1,0($0)\nlbu $2,0($0)\nbreak\n",
            "stop break\ncount 2\npc 0x00400008\nr1 0xffffff80\nr2 0x00000080\nm 0x00000000 0x00000080\n",
        ),
        (
            "addiu $1,$0,-8\naddiu $2,$0,33\nsrav $3,$1,$2\nbreak\n",
            "stop break\ncount 3\npc 0x0040000c\nr1 0xfffffff8\nr2 0x00000021\nr3 0xfffffffc\n",
        ),
        (
            "lui $1,0x40\nori $1,$1,16\njalr $1,$1\nbreak\nbreak\n",
            "stop break\ncount 3\npc 0x00400010\nr1 0x0040000c\n",
        ),
        (
            ".space 4\nsb $0,-1($0)\n",
            "stop range\ncount 0\npc 0x00400000\n",
        ),
    ];
    let gate = no_question();
    for (listing, expected) in rows {
        check(&rt, rt.alloc(), listing, &four_units(), &gate, expected)?;
    }
    assert!(rt; 1 < gate.units.load(SeqCst).count_ones());
    Ok(())
}

// A loop of two mispredictions, to its end and to a limit.
#[test]
fn a_loop_has_its_report_by_several_units(rt: HostRuntime) -> Result<(), Fail> {
    let listing = "addiu $1,$0,3\nL: addiu $1,$1,-1\nbne $1,$0,L\nbreak\n";
    let rows: [(u64, &str); 2] = [
        (1_000_000, "stop break\ncount 7\npc 0x0040000c\n"),
        (2, "limit\ncount 2\npc 0x00400008\nr1 0x00000002\n"),
    ];
    let gate = no_question();
    for (limit, expected) in rows {
        let shape = Shape {
            ring: 2,
            limit,
            ..four_units()
        };
        check(&rt, rt.alloc(), listing, &shape, &gate, expected)?;
    }
    assert!(rt; 1 < gate.units.load(SeqCst).count_ones());
    Ok(())
}
