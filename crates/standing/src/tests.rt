//! Bans at their limits, and the order that a lift leaves.
use super::*;
use std::test::Fail;

const fn yes(choice: u16) -> Member {
    Member {
        choice,
        answer: Answer::Yes,
    }
}

fn nine() -> Result<SheetSize, Fail> {
    let Some(n) = SheetSize::new(9) else {
        return Err(Fail::new("nine choices are few enough"));
    };
    Ok(n)
}

#[test]
fn members(rt: HostRuntime) -> Result<(), Fail> {
    let all = [
        yes(1),
        yes(2),
        yes(3),
        yes(4),
        yes(5),
        yes(6),
        yes(7),
        yes(8),
        yes(9),
    ];
    for count in 0..10 {
        let expected = match count {
            1..=8 => Ok(()),
            _ => Err(fault(JobCause::MemberCount)),
        };
        assert_eq!(rt; Bans::new().ban(nine()?, &all[..count]), expected);
    }
    Ok(())
}

#[test]
fn standing(rt: HostRuntime) -> Result<(), Fail> {
    let mut bans = Bans::new();
    for _ in 0..64 {
        bans.ban(nine()?, &[yes(1)])?;
    }
    assert_eq!(rt;
        bans.ban(nine()?, &[yes(1)]),
        Err(fault(JobCause::BansFull))
    );
    assert_eq!(rt; bans.len(), 64);
    Ok(())
}

#[test]
fn lifts(rt: HostRuntime) -> Result<(), Fail> {
    let mut bans = Bans::new();
    for choice in 1..5 {
        bans.ban(nine()?, &[yes(choice)])?;
    }
    bans.lift(2)?;
    assert_eq!(rt; bans.lift(4), Err(fault(JobCause::NoSuchBan)));
    let left = [yes(1), yes(3), yes(4)];
    assert_eq!(rt; bans.rows().len(), left.len());
    for (ban, member) in bans.rows().iter().zip(&left) {
        assert_eq!(rt; ban.members(), [*member].as_slice());
    }
    Ok(())
}
