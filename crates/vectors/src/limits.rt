//! Files at their limits and one past them.
use super::cases::{repeated, says};
use setting::set_sheet;
use std::test::Fail;

#[test]
fn bytes(rt: HostRuntime) -> Result<(), Fail> {
    let heap = rt.alloc();
    says(
        &rt,
        &set_sheet,
        repeated(heap, b"p 0 0\nc", b"-", 65527, b"\n")?.as_slice(),
        1_000_000,
        b"found 0\n\n",
        "65,535 bytes",
    )?;
    says(
        &rt,
        &set_sheet,
        repeated(heap, b"p 0 0\nc", b"-", 65528, b"\n")?.as_slice(),
        1_000_000,
        b"refused 10 at 65535 line 2\n",
        "65,536 bytes",
    )?;
    says(
        &rt,
        &set_sheet,
        repeated(heap, b"p 0 0\n", b"x", 70000, b"")?.as_slice(),
        1_000_000,
        b"refused 10 at 65535 line 2\n",
        "too many bytes come first",
    )
}

#[test]
fn header(rt: HostRuntime) -> Result<(), Fail> {
    let heap = rt.alloc();
    says(
        &rt,
        &set_sheet,
        repeated(heap, b"p 4096 1\n{0 0},\n", b"", 0, b"")?.as_slice(),
        1_000_000,
        b"none 0\n",
        "4,096 choices",
    )?;
    says(
        &rt,
        &set_sheet,
        repeated(heap, b"p 4097 1\n{0 0},\n", b"", 0, b"")?.as_slice(),
        1_000_000,
        b"refused 16 at 2 line 1\n",
        "4,097 choices",
    )?;
    says(
        &rt,
        &set_sheet,
        repeated(heap, b"p 1 2048\n", b"1,1\n", 2048, b"")?.as_slice(),
        1_000_000,
        b"found 1\n1\n",
        "2,048 rules",
    )?;
    says(
        &rt,
        &set_sheet,
        repeated(heap, b"p 1 2049\n", b"1,1\n", 2049, b"")?.as_slice(),
        1_000_000,
        b"refused 16 at 4 line 1\n",
        "2,049 rules",
    )?;
    says(
        &rt,
        &set_sheet,
        repeated(heap, b"p 1 2048\n", b"1,1\n", 2047, b"")?.as_slice(),
        1_000_000,
        b"refused 17 at 8197 line 2049\n",
        "a rule too few",
    )
}

#[test]
fn items(rt: HostRuntime) -> Result<(), Fail> {
    let heap = rt.alloc();
    says(
        &rt,
        &set_sheet,
        repeated(heap, b"p 1 1\n,", b"{0 0}", 1024, b"\n")?.as_slice(),
        1_000_000,
        b"found 1\n1\n",
        "1,024 counts",
    )?;
    says(
        &rt,
        &set_sheet,
        repeated(heap, b"p 1 1\n,", b"{0 0}", 1025, b"\n")?.as_slice(),
        1_000_000,
        b"refused 16 at 5127 line 2\n",
        "1,025 counts",
    )?;
    says(
        &rt,
        &set_sheet,
        repeated(heap, b"p 1 1\n,", b"1 ", 16384, b"\n")?.as_slice(),
        1_000_000,
        b"found 1\n1\n",
        "16,384 entries",
    )?;
    says(
        &rt,
        &set_sheet,
        repeated(heap, b"p 1 1\n,", b"1 ", 16385, b"\n")?.as_slice(),
        1_000_000,
        b"refused 16 at 32775 line 2\n",
        "16,385 entries",
    )
}
