// The limits of a drawing, met and passed by one.
use crate::reading::{Memory, with_head};
use std::alloc::{AllocError, Global};
use std::process::Abort;
use std::test::Fail;

// Sees that reading a file tells this number of a refusal, or 0.
fn check(rt: &impl Abort, heap: Global, file: &String, number: u32) -> Result<(), Fail> {
    let mut memory = Memory::new(heap, 200, 5_000, 9_000)?;
    assert_eq!(rt; memory.told(file.as_bytes()).0, number);
    Ok(())
}

// Three apertures of the head and `more` others.
fn apertures(heap: Global, more: u32) -> Result<String, AllocError> {
    let mut file = with_head(heap, "")?;
    for k in 0..more {
        let code = 100 + k % 800;
        file.push_str(format!(in heap; "%ADD{code}C,1*%")?.as_str())?;
    }
    file.push_str("M02*")?;
    Ok(file)
}

#[test]
fn apertures_127_to_129(rt: HostRuntime) -> Result<(), Fail> {
    for (more, number) in [(124, 0), (125, 0), (126, 29)] {
        check(&rt, rt.alloc(), &apertures(rt.alloc(), more)?, number)?;
    }
    Ok(())
}

// So many flashes.
fn flashes(heap: Global, count: usize) -> Result<String, AllocError> {
    let flashes = "D03*".repeat(heap, count)?;
    with_head(
        heap,
        format!(in heap; "D10*X0Y0D02*{flashes}M02*")?.as_str(),
    )
}

#[test]
fn objects_4096_and_4097(rt: HostRuntime) -> Result<(), Fail> {
    for (count, number) in [(4_096, 0), (4_097, 29)] {
        check(&rt, rt.alloc(), &flashes(rt.alloc(), count)?, number)?;
    }
    Ok(())
}

// One contour of so many pieces, all of them to its first point.
fn pieces(heap: Global, count: usize) -> Result<String, AllocError> {
    let pieces = "D01*".repeat(heap, count)?;
    with_head(
        heap,
        format!(in heap; "G01*G36*X0Y0D02*{pieces}G37*M02*")?.as_str(),
    )
}

#[test]
fn pieces_8192_and_8193(rt: HostRuntime) -> Result<(), Fail> {
    for (count, number) in [(8_192, 0), (8_193, 29)] {
        check(&rt, rt.alloc(), &pieces(rt.alloc(), count)?, number)?;
    }
    Ok(())
}

// Blocks that each flash the one before, `deep` of them; the first flashes a circle.
fn nested(heap: Global, deep: u32) -> Result<String, AllocError> {
    let mut file = with_head(heap, "")?;
    let mut before = 10;
    for k in 0..deep {
        let code = 100 + k % 800;
        let block = format!(in heap; "%ABD{code}*%D{before}*X0Y0D03*%AB*%")?;
        file.push_str(block.as_str())?;
        before = code;
    }
    file.push_str("M02*")?;
    Ok(file)
}

#[test]
fn depth_8_and_9(rt: HostRuntime) -> Result<(), Fail> {
    for (deep, number) in [(8, 0), (9, 30)] {
        check(&rt, rt.alloc(), &nested(rt.alloc(), deep)?, number)?;
    }
    Ok(())
}

// A block of `count` flashes, in a step and repeat of 100 by 100, and `more` flashes on the layer.
fn repeated(heap: Global, count: usize, more: usize) -> Result<String, AllocError> {
    let block = "D03*".repeat(heap, count)?;
    let layer = "D03*".repeat(heap, more)?;
    let body = format!(in heap;
        "%ABD20*%D10*X0Y0D02*{block}%AB*%%SRX100Y100I0J0*%D20*X0Y0D03*%SR*%X0Y0D02*D10*{layer}M02*"
    )?;
    with_head(heap, body.as_str())
}

#[test]
fn laid_1000000_and_one_more(rt: HostRuntime) -> Result<(), Fail> {
    for (count, more, number) in [(100, 0, 0), (100, 1, 30), (101, 0, 30), (99, 1, 0)] {
        check(&rt, rt.alloc(), &repeated(rt.alloc(), count, more)?, number)?;
    }
    Ok(())
}

// Blocks that flash the one before 401 times, down to an empty one, are read at once.
#[test]
fn doubling_blocks(rt: HostRuntime) -> Result<(), Fail> {
    let heap = rt.alloc();
    let more = "D03*".repeat(heap, 400)?;
    let mut file = with_head(heap, "%ABD100*%%AB*%")?;
    for k in 1..8u32 {
        let (code, before) = (100 + k, 99 + k);
        let block = format!(in heap; "%ABD{code}*%D{before}*X0Y0D03*{more}%AB*%")?;
        file.push_str(block.as_str())?;
    }
    file.push_str("D107*X0Y0D03*M02*")?;
    let mut memory = Memory::new(heap, 128, 4_096, 1)?;
    assert_eq!(rt; memory.told(file.as_bytes()), (0, 2_808, 0));
    Ok(())
}
