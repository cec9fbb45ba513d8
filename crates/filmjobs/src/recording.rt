// Listing the records of a file.
use crate::memory::{Memory, SlotPlan};
use drawing::fault::Drawing;
use drawing::reading::read_drawing;
use std::fmt;
use terminal::files::{read_file, refuse};
use terminal::stop::Stop;
use wording::records_in_words::Numbered;

// Prints the first `count` records, each with its number.
fn print_numbered<T: Copy>(rt: &HostRuntime, records: &[T], count: usize) -> Result<(), Stop>
where
    Numbered<T>: fmt::Display,
{
    for (number, &record) in records.iter().take(count).enumerate() {
        println!(rt; "{}", Numbered { number, record })?;
    }
    Ok(())
}

fn print_records(rt: &HostRuntime, memory: &Memory, drawing: Drawing) -> Result<(), Stop> {
    let Drawing {
        apertures,
        objects,
        pieces,
        laid,
    } = drawing;
    print_numbered(rt, memory.apertures.as_slice(), apertures)?;
    print_numbered(rt, memory.objects.as_slice(), objects)?;
    print_numbered(rt, memory.pieces.as_slice(), pieces)?;
    println!(rt; "{apertures} apertures, {objects} objects, {pieces} pieces, {laid} objects laid")?;
    Ok(())
}

// Lists the records of the file at `path`, or tells why it is refused.
pub(crate) fn list_records(rt: &HostRuntime, path: &str) -> Result<(), Stop> {
    let file = read_file(rt, path)?;
    let mut memory = Memory::new(rt.alloc(), SlotPlan::FULL)?;
    match read_drawing(file.as_slice(), &mut memory.lend()) {
        Ok(drawing) => print_records(rt, &memory, drawing),
        Err(fault) => refuse(rt, path, file.as_slice(), fault.into()),
    }
}
