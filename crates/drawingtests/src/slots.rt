// What the caller's slots hold after a reading.
use crate::reading::{HEAD, Memory, with_head};
use records::kinds::{Figure, Outline, Owner};
use std::test::Fail;

// A table with fewer slots is full earlier, and never otherwise.
#[test]
fn slots_of_none_one_and_enough(rt: HostRuntime) -> Result<(), Fail> {
    let body = "D10*X0Y0D03*D03*G01*G36*X0Y0D02*X10000D01*Y10000D01*X0Y0D01*G37*M02*";
    let file = with_head(rt.alloc(), body)?;
    let cases = [
        ((0, 9, 9), (29, 21, 2)),
        ((1, 9, 9), (29, 34, 3)),
        ((2, 9, 9), (29, 49, 4)),
        ((3, 3, 3), (0, 3, 3)),
        ((3, 0, 3), (29, 67, 6)),
        ((3, 1, 3), (29, 75, 7)),
        ((3, 2, 3), (29, 123, 14)),
        ((3, 3, 0), (29, 95, 11)),
        ((3, 3, 2), (29, 115, 13)),
        ((128, 4096, 8192), (0, 3, 3)),
    ];
    for ((a, o, p), expected) in cases {
        let mut memory = Memory::new(rt.alloc(), a, o, p)?;
        assert_eq!(rt; memory.told(file.as_bytes()), expected);
    }
    Ok(())
}

// The records taken before a refusal stand in the slots, and later slots are untouched.
#[test]
fn records_before_a_refusal_stay(rt: HostRuntime) -> Result<(), Fail> {
    let file = with_head(rt.alloc(), "D10*X0Y0D03*%ABD20*%X5000Y5000D03*D99*")?;
    let mut memory = Memory::new(rt.alloc(), 6, 4, 2)?;
    assert_eq!(rt; memory.told(file.as_bytes()), (23, 97, 9));
    assert!(rt;
        memory.apertures.len() == 6 && memory.objects.len() == 4 && memory.pieces.len() == 2
    );
    assert_eq!(rt; memory.apertures[0].code, 10);
    assert_eq!(rt; memory.apertures[3].code, 20);
    assert_eq!(rt; memory.apertures[3].figure, Figure::Block { first: 1 });
    assert_eq!(rt; memory.apertures[4].code, 7);
    assert_eq!(rt; memory.objects[0].owner, Owner::Layer);
    assert_eq!(rt; memory.objects[1].owner, Owner::Block(3));
    assert_eq!(rt; memory.objects[2].owner, Owner::Block(777));
    assert_eq!(rt; memory.pieces[0].end.x, 77);
    Ok(())
}

// A file that is too long is refused before its first byte is looked at, and takes nothing.
#[test]
fn a_file_too_long(rt: HostRuntime) -> Result<(), Fail> {
    let mut file = with_head(rt.alloc(), "M02*")?.into_bytes();
    file.resize(1_048_576, b'\n')?;
    let mut memory = Memory::new(rt.alloc(), 128, 1, 1)?;
    assert_eq!(rt; memory.told(file.as_slice()), (0, 0, 0));
    file.push(b'\n')?;
    let mut t = Memory::new(rt.alloc(), 128, 1, 1)?;
    assert_eq!(rt; t.told(file.as_slice()), (7, 0, 0));
    assert!(rt; t.apertures.len() == 128);
    assert_eq!(rt; t.apertures[0].code, 7);
    let bad = vec![in rt.alloc(); 0u8; 1_048_577]?;
    assert_eq!(rt; t.told(bad.as_slice()), (7, 0, 0));
    Ok(())
}

// A file's objects with what they belong to.
#[test]
fn owners_and_numbers(rt: HostRuntime) -> Result<(), Fail> {
    let body =
        "%ABD20*%D10*X0Y0D03*%AB*%%SRX2Y3I1J2*%D20*%LMXY*%X10000Y0D03*%SR*%%LPC*%D11*X0Y0D03*M02*";
    let file = with_head(rt.alloc(), body)?;
    let mut memory = Memory::new(rt.alloc(), 8, 8, 8)?;
    let d = memory.read(file.as_bytes()).ok().ok_or("refused")?;
    assert_eq!(rt; (d.apertures, d.objects, d.pieces, d.laid), (4, 3, 0, 7));
    assert!(rt; memory.objects.len() == 8);
    assert_eq!(rt; memory.objects[0].owner, Owner::Block(3));
    match memory.objects[1].owner {
        Owner::Repeat(r) => {
            assert_eq!(rt; (r.first, r.columns, r.rows), (1, 2, 3));
            assert_eq!(rt; (r.step_x, r.step_y), (200, 400));
        }
        _ => return Err(Fail::new("no step and repeat")),
    }
    match memory.objects[1].outline {
        Outline::Block { number, at, mirror } => {
            assert_eq!(rt; (number, at.x, at.y), (3, 200, 0));
            assert!(rt; mirror.x && mirror.y);
        }
        _ => return Err(Fail::new("no flash of a block")),
    }
    assert!(rt; HEAD.len() == 63);
    Ok(())
}
