//! The example for callers from outside, run.
use client::{first_outcome, is_chain, second_outcome};
use instructions::{Config, Outcome, Stop};
use isa::parse;
use std::test::Fail;

#[test]
fn the_first_instruction_comes_to_its_outcome(rt: HostRuntime) -> Result<(), Fail> {
    let rows: [(&[u8], Outcome); 3] = [
        (b"addiu $1,$0,5\nbreak\n", Outcome::Value(5)),
        (b"beq $0,$0,E\nnop\nE: break\n", Outcome::Next(0x0040_0008)),
        (b"break\n", Outcome::Stop(Stop::Break)),
    ];
    let config = Config::new(4, 2, 1, 1, 1, 1_000, 1_000)?;
    for (listing, outcome) in rows {
        let program = parse(rt.alloc(), listing)?;
        assert!(rt; program.len() > 0);
        let found = first_outcome(rt.alloc(), &program, &config)?;
        assert!(rt; found == outcome);
    }
    Ok(())
}

#[test]
fn a_value_comes_to_the_second_instruction(rt: HostRuntime) -> Result<(), Fail> {
    let rows: [(&[u8], Outcome); 4] = [
        (b"addiu $1,$0,5\naddiu $2,$1,7\nbreak\n", Outcome::Value(12)),
        (b"lui $1,0x8000\nsrl $2,$1,31\nbreak\n", Outcome::Value(1)),
        (b"ori $8,$0,16\njr $8\nbreak\n", Outcome::Next(16)),
        (
            b".space 8\nori $1,$0,4\nlw $2,0($1)\nbreak\n",
            Outcome::Address(4),
        ),
    ];
    let config = Config::new(4, 2, 1, 1, 1, 1_000, 1_000)?;
    for (listing, outcome) in rows {
        let program = parse(rt.alloc(), listing)?;
        assert!(rt; is_chain(&program));
        let found = second_outcome(rt.alloc(), &program, &config)?;
        assert!(rt; found == outcome);
    }
    Ok(())
}
