//! Box lists that are written out, and what is printed of them.
use super::cases::{all_hold, prints, repeated, says};
use box_list::has_too_many;
use setting::set_boxes;
use std::alloc::{AllocError, Global};
use std::test::Fail;

#[test]
fn verdicts(rt: HostRuntime) -> Result<(), Fail> {
    all_hold(
        &rt,
        &set_boxes,
        &[
            prints(
                b"1,0,0,10,10\n1,20,0,30,10\n2,5,5,15,15\n",
                b"found 0\n2 3\n",
            ),
            // Boxes that share an edge or a corner both stand; others that overlap do not.
            prints(b"1,0,0,10,10\n2,10,0,20,10\n", b"found 0\n1 2\n"),
            prints(b"1,0,0,10,10\n2,10,10,20,20\n", b"found 0\n1 2\n"),
            prints(b"1,0,0,10,10\n2,9,9,20,20\n", b"none 0\n"),
            prints(b"1,0,0,1,1\n1,5,5,6,6\n", b"found 1\n1\n"),
            // Rows and their ends.
            prints(b"", b"found 0\n\n"),
            prints(b"1,0,0,1,1", b"found 0\n1\n"),
            prints(b"1,0,0,1,1\r\n2,5,5,6,6\r\n", b"found 0\n1 2\n"),
            prints(b" 01 , 0,0 ,1,1\n", b"found 0\n1\n"),
            // A heading.
            prints(b"name,left\n", b"found 0\n\n"),
            prints(b" \n1,0,0,1,1", b"found 0\n1\n"),
        ],
    )
}

#[test]
fn names(rt: HostRuntime) -> Result<(), Fail> {
    all_hold(
        &rt,
        &set_boxes,
        &[
            prints(b"0,0,0,1,1\n", b"refused 21 at 0 row 1\n"),
            prints(b"512,0,0,1,1\n", b"found 0\n1\n"),
            prints(b"513,0,0,1,1\n", b"refused 21 at 0 row 1\n"),
            prints(b"name\n0,0,0,1,1\n", b"refused 21 at 0 row 2\n"),
            prints(b"a,0,0,1,1\n", b"refused 21 at 0 row 1\n"),
            // Only the first row can be a heading, and an empty row is none.
            prints(b"a\nb\n", b"refused 21 at 0 row 2\n"),
            prints(b"1,0,0,1,1\nname\n", b"refused 21 at 1 row 2\n"),
            prints(b"\n1,0,0,1,1\n", b"refused 21 at 0 row 1\n"),
            prints(b"\r\n", b"refused 21 at 0 row 1\n"),
            prints(b"name\n1,0,0,1,1\n\n", b"refused 21 at 1 row 3\n"),
            // Names that fall.
            prints(b"2,0,0,1,1\n1,5,5,6,6\n", b"refused 23 at 1 row 2\n"),
            prints(b"name\n2,0,0,1,1\n1,5,5,6,6", b"refused 23 at 1 row 3\n"),
        ],
    )
}

#[test]
fn edges(rt: HostRuntime) -> Result<(), Fail> {
    all_hold(
        &rt,
        &set_boxes,
        &[
            prints(b"1,0,0,20000,20000\n", b"found 0\n1\n"),
            prints(b"1,0,0,20001,1\n", b"refused 22 at 0 row 1\n"),
            prints(b"1,0,0,1,20001\n", b"refused 22 at 0 row 1\n"),
            prints(b"1,0,0,65536,1\n", b"refused 22 at 0 row 1\n"),
            prints(b"1,5,0,5,1\n", b"refused 22 at 0 row 1\n"),
            prints(b"1,0,5,1,5\n", b"refused 22 at 0 row 1\n"),
            prints(b"1,,0,1,1\n", b"refused 22 at 0 row 1\n"),
            prints(b"1,0,0,1\n", b"refused 22 at 0 row 1\n"),
            prints(b"1,0,0,1,1,\n", b"refused 22 at 0 row 1\n"),
            // The first bad box is told, and of its causes the smallest.
            prints(b"513,5,0,5,1\n", b"refused 21 at 0 row 1\n"),
            prints(b"513,0\n", b"refused 21 at 0 row 1\n"),
            prints(b"2,0,0,1,1\n1,0,0,0,1\n", b"refused 22 at 1 row 2\n"),
            prints(b"1,0,0,0,1\n0,0,0,1,1\n", b"refused 22 at 0 row 1\n"),
        ],
    )
}

/// A text that begins so, with that many boxes after it.
fn boxes(heap: Global, begin: &[u8], times: usize) -> Result<Vec<u8>, AllocError> {
    repeated(heap, begin, b"1,0,0,1,1\n", times, b"")
}

#[test]
fn most(rt: HostRuntime) -> Result<(), Fail> {
    let heap = rt.alloc();
    let all = boxes(heap, b"", 4096)?;
    assert!(rt; !has_too_many(all.as_slice()));
    says(
        &rt,
        &set_boxes,
        all.as_slice(),
        1_000_000,
        b"found 1\n1\n",
        "4,096 boxes",
    )?;
    let over = boxes(heap, b"", 4097)?;
    assert!(rt; has_too_many(over.as_slice()));
    says(
        &rt,
        &set_boxes,
        over.as_slice(),
        1_000_000,
        b"refused 20 at 4096 row 4097\n",
        "4,097 boxes",
    )?;
    let headed = boxes(heap, b"name\n", 4096)?;
    assert!(rt; !has_too_many(headed.as_slice()), "a heading is no box");
    let bad = boxes(heap, b"name\n0\n", 4096)?;
    says(
        &rt,
        &set_boxes,
        bad.as_slice(),
        1_000_000,
        b"refused 20 at 4096 row 4098\n",
        "too many boxes come first",
    )
}
