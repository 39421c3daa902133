//! Files that are written out, and what is printed of them.
use super::cases::{Case, all_hold, prints};
use setting::set_sheet;
use std::test::Fail;

#[test]
fn verdicts(rt: HostRuntime) -> Result<(), Fail> {
    let cases = [
        prints(b"p 3 2\n, { 1 1 1 2 }\n1 , 3\n", b"found 1\n1 3\n"),
        Case {
            text: b"p 3 2\n, { 1 1 1 2 }\n1 , 3\n",
            allowance: 1,
            says: b"found 1\n1 3\n",
        },
        Case {
            text: b"p 3 2\n, { 1 1 1 2 }\n1 , 3\n",
            allowance: 0,
            says: b"spent 0\n",
        },
        prints(b"p 0 0\n", b"found 0\n\n"),
        prints(b"p 0 1\n,\n", b"none 0\n"),
        prints(b"p 2 1\n{ 1 2 1 2 } ,\n", b"found 2\n\n"),
        Case {
            text: b"p 2 1\n{ 1 2 1 2 } ,\n",
            allowance: 1,
            says: b"spent 1\n",
        },
        prints(b"p3 1\nc x\n1{1 1 2}3,\n", b"found 2\n1 2\n"),
        prints(b"c first\np 1 1\nc between\n,1\nc last\n", b"found 0\n1\n"),
        prints(b"p 001 1\n, 01\n", b"found 0\n1\n"),
        prints(b"p 2 1\n, { 2 1 1 2 }\n", b"none 0\n"),
    ];
    all_hold(&rt, &set_sheet, &cases)
}

#[test]
fn refusals(rt: HostRuntime) -> Result<(), Fail> {
    let cases = [
        prints(b"", b"refused 13 at 0 line 1\n"),
        prints(b"p 2 1\n1 , 3\n", b"refused 14 at 10 line 2\n"),
        prints(b"p 2 1\n1 , 2\n", b"found 1\n1 2\n"),
        prints(b"p 2 1\n0 ,\n", b"refused 14 at 6 line 2\n"),
        prints(b"p 3 1\n9x\n", b"refused 14 at 6 line 2\n"),
        prints(b"p 3 1\n1x\n", b"refused 11 at 7 line 2\n"),
        prints(b"p 3 1\n1 c ,\n", b"refused 11 at 8 line 2\n"),
        prints(b"p 3 1\n\t,\n", b"refused 11 at 6 line 2\n"),
        prints(b"p 1 1\n{0 65535},\n", b"none 0\n"),
        prints(b"p 1 1\n{0 65536},\n", b"refused 12 at 9 line 2\n"),
        prints(b"p 3 1\n1 , 3", b"refused 13 at 11 line 2\n"),
        prints(b"p 0 0\nc no feed", b"refused 13 at 15 line 2\n"),
        prints(b" p 3 0\n", b"refused 13 at 1 line 1\n"),
        prints(b"p 3\n", b"refused 13 at 3 line 1\n"),
        prints(b"p 3 0 0\n", b"refused 13 at 6 line 1\n"),
        prints(b"p 3 1\np\n", b"refused 13 at 6 line 2\n"),
        prints(b"p 3 1\n\n", b"refused 13 at 6 line 2\n"),
        prints(b"p 3 1\n1 2\n", b"refused 13 at 9 line 2\n"),
        prints(b"p 3 1\n1 , 2 ,\n", b"refused 13 at 12 line 2\n"),
        prints(b"p 3 1\n, { 1 }\n", b"refused 13 at 12 line 2\n"),
        prints(b"p 3 1\n, {0 0 1 2 1}\n", b"refused 15 at 17 line 2\n"),
        prints(b"p 3 1\n, {0 0 1 2} {0 0 1}\n", b"found 3\n2 3\n"),
        prints(b"p 3 1\n", b"refused 17 at 6 line 2\n"),
        prints(b"p 3 1\nc\n", b"refused 17 at 8 line 3\n"),
        prints(b"p 3 0\n 1 ,\n", b"refused 17 at 6 line 2\n"),
        prints(b"p 3 0\n1 ,\n", b"refused 17 at 6 line 2\n"),
        prints(b"p 3 0\n4 ,\n", b"refused 14 at 6 line 2\n"),
        prints(b"p 3 0\n\n", b"refused 13 at 6 line 2\n"),
        prints(b"p 3 0\nx\n", b"refused 11 at 6 line 2\n"),
        prints(b"p 3 0\n65536 ,\n", b"refused 12 at 6 line 2\n"),
    ];
    all_hold(&rt, &set_sheet, &cases)
}
