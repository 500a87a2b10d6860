//! A life of each end, and the laws called once.
use fkv_lives::laws::wrong_lives;
use fkv_operations::{Answer, Op};
use fkv_worlds::{End, Finish, Life, Outcome};

const ENDS: [End<u64>; 4] = [
    End::Open,
    End::Finished(Finish {
        effect: 4,
        done: 4,
        answer: Answer::Value(5),
    }),
    End::Failed,
    End::GivenUp,
];

fn ended(end: End<u64>) -> Life<u64, u64, u64, u64> {
    Life {
        partition: 0,
        session: 1,
        number: 1,
        op: Op::Rmw(7, 5),
        issue: 2,
        end,
    }
}

#[test]
fn lives_of_each_end(rt: HostRuntime) {
    wrong_lives();
    for (i, end) in ENDS.iter().enumerate() {
        for (j, other) in ENDS.iter().enumerate() {
            assert_eq!(rt; ended(*end) == ended(*other), i == j, "{i} and {j}");
        }
    }
    let told: Outcome<u64, u64> = Outcome::Done(Answer::Absent);
    assert!(rt; told != Outcome::Next);
}
