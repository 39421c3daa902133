//! Pins and bans on the worked sheet, and jobs over books of each kind.
use book::{Answer, Book, Mark};
use box_book::{BoxBook, NameBox};
use job::Job;
use rule_store::Storage;
use solver::{Ending, Verdict};
use standing::Member;
use std::test::Fail;

const Y: Mark = Mark::Yes;

const N: Mark = Mark::No;

/// What a search of a job of three choices says, and the marks after it.
fn searched<B: Book>(job: &Job<B>, allowance: u64) -> Result<(Verdict, [Mark; 3]), Fail> {
    let mut marks = [Mark::Open; 3];
    let mut work = [0; 3];
    let verdict = job.search(allowance, &mut marks, &mut work)?;
    Ok((verdict, marks))
}

fn verdict(ending: Ending, trials: u64) -> Verdict {
    Verdict { ending, trials }
}

#[test]
fn worked_sheet(rt: HostRuntime) -> Result<(), Fail> {
    let mut storage = Storage::new();
    let file = b"p 3 2\n, { 1 1 1 2 }\n1 , 3\n";
    let Ok(book) = storage.read(file) else {
        return Err(Fail::new("the file is refused"));
    };
    let mut job = Job::new(book);
    job.pin(3, Answer::No)?;
    assert_eq!(rt; searched(&job, 9)?, (verdict(Ending::Found, 0), [N, Y, N]));
    job.pin(1, Answer::Yes)?;
    assert_eq!(rt;
        searched(&job, 9)?,
        (verdict(Ending::None, 0), [Mark::Open; 3])
    );
    job.free(3)?;
    assert_eq!(rt; searched(&job, 9)?, (verdict(Ending::Found, 0), [Y, N, Y]));
    job.free(1)?;
    let member = Member {
        choice: 1,
        answer: Answer::Yes,
    };
    job.ban(&[member])?;
    assert_eq!(rt; searched(&job, 1)?, (verdict(Ending::Found, 1), [N, Y, Y]));
    let mut above = Job::new(job);
    above.pin(3, Answer::No)?;
    assert_eq!(rt;
        searched(&above, 1)?,
        (verdict(Ending::Found, 0), [N, Y, N]),
        "a job over a job"
    );
    Ok(())
}

#[test]
fn boxes(rt: HostRuntime) -> Result<(), Fail> {
    let rows = [
        NameBox {
            name: 1,
            left: 0,
            top: 0,
            right: 10,
            bottom: 10,
        },
        NameBox {
            name: 1,
            left: 20,
            top: 0,
            right: 30,
            bottom: 10,
        },
        NameBox {
            name: 2,
            left: 50,
            top: 5,
            right: 60,
            bottom: 15,
        },
    ];
    let mut job = Job::new(BoxBook::of(&rows));
    assert_eq!(rt; searched(&job, 9)?, (verdict(Ending::Found, 1), [Y, N, Y]));
    job.pin(2, Answer::Yes)?;
    assert_eq!(rt; searched(&job, 9)?, (verdict(Ending::Found, 0), [N, Y, Y]));
    job.pin(3, Answer::No)?;
    assert_eq!(rt;
        searched(&job, 9)?,
        (verdict(Ending::None, 0), [Mark::Open; 3])
    );
    Ok(())
}
