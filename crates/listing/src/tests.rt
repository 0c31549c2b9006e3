// Listings of small files, with their texts written out.
use crate::list::listing;
use std::test::Fail;

// A node with a rate of 10, and the tasks acq, log and tx; tx is due after 21 slots.
const THREE_TASKS: &[u8; 98] = b"\x18\0\x01\0\x0a\0\0\0\0\0\0\0\0\0\0\0\x64\0\0\0\0\0\0\0\
    \x19\0\x02\0\x01\0\x08\0\0\0\x08\0\0\0\x28\0\0\0\0\0\0\0acq\
    \x19\0\x02\0\x03\0\x0c\0\0\0\x0c\0\0\0\0\0\0\0\0\0\0\0log\
    \x18\0\x02\0\x01\0\x1e\0\0\0\x15\0\0\0\x19\0\0\0\0\0\0\0tx";

// A test fails where this does not hold.
fn check(holds: bool) -> Result<(), Fail> {
    if holds {
        Ok(())
    } else {
        Err(Fail::new("it does not hold"))
    }
}

// The listing of a file is this text, and the bytes behind it stay as they were.
fn check_listing(file: &[u8], text: &[u8], accepted: bool) -> Result<(), Fail> {
    let before = [7u8; 100];
    let mut output = before;
    let Ok(listed) = listing(file, &mut output) else {
        return Err(Fail::new("the output is too short"));
    };
    let length = listed.length;
    check(length <= 100)?;
    check(&output[..length] == text)?;
    check(&output[length..] == &before[length..])?;
    check(listed.accepted == accepted)
}

#[test]
fn three_tasks_are_accepted() -> Result<(), Fail> {
    let text = b"acq 1 4 4 2 ok\nlog 4 4 7 2 ok\ntx 5 7 21 5 ok\naccepted\n";
    check_listing(THREE_TASKS, text, true)
}

#[test]
fn one_slot_earlier_is_late() -> Result<(), Fail> {
    let mut file = *THREE_TASKS;
    file[84] = 20;
    let text = b"acq 1 4 4 2 ok\nlog 4 4 7 2 ok\ntx 5 7 - 4 late\nnot accepted\n";
    check_listing(&file, text, false)
}

#[test]
fn empty_file_is_refused() -> Result<(), Fail> {
    check_listing(&[], b"refused 4 at 0\n", false)
}

#[test]
fn record_past_the_end_is_refused() -> Result<(), Fail> {
    check_listing(&[0xFF, 0xFF, 1, 0], b"refused 1 at 0\n", false)
}

// The text has 54 bytes.
#[test]
fn output_too_short_is_left_alone() -> Result<(), Fail> {
    let before = [7u8; 53];
    let mut output = before;
    let Err(refusal) = listing(THREE_TASKS, &mut output) else {
        return Err(Fail::new("the output is long enough"));
    };
    check(refusal.number() == 13)?;
    check(&output[..] == &before[..])
}
