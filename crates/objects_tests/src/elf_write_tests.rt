use elf_read::read_object;
use elf_write::write_object;
use sample_objects::{HELLO, NOTHING};
use std::alloc::Global;
use std::test::Fail;

/// The object that a file is read as is written as the same file.
fn is_written_again(alloc: Global, file: &[u8]) -> Result<bool, Fail> {
    let object = read_object(alloc, file)?;
    Ok(write_object(alloc, &object)?.as_slice() == file)
}

#[test]
fn what_is_read_is_written(rt: HostRuntime) -> Result<(), Fail> {
    assert!(rt; is_written_again(rt.alloc(), &HELLO)?);
    Ok(())
}

/// How many sections are read in what is written of the object of a file.
fn sections_read_again(alloc: Global, file: &[u8]) -> Result<usize, Fail> {
    let object = read_object(alloc, file)?;
    let written = write_object(alloc, &object)?;
    let again = read_object(alloc, written.as_slice())?;
    Ok(again.sections.as_slice().len())
}

#[test]
fn memory_is_enough_for_the_file_of_nothing(rt: HostRuntime) -> Result<(), Fail> {
    assert_eq!(rt; sections_read_again(rt.alloc(), &NOTHING)?, 0);
    Ok(())
}
