//! Rule files as surveys, the first fault of files that are none, and surveys printed as rule files.

use edit_language::{RulesFault, print_rules, read_rules};
use edit_model::Survey;
use std::alloc::Global;
use std::process::Abort;
use std::test::Fail;

/// The survey of a rule text, or inside the answer why it has none. A text of 2^32 bytes or more ends the
/// test, since `read_rules` asks for fewer.
fn survey_in(alloc: Global, text: &[u8]) -> Result<Result<Survey, RulesFault>, Fail> {
    if text.len() >= 1 << 32 {
        return Err(Fail::from("a long text"));
    }
    Ok(read_rules(alloc, text))
}

/// The line, from 1, and the number of the kind, from 1 to 9, of the text's first fault. Both are 0 where it
/// has none. Want of memory ends the test.
fn first_fault(alloc: Global, text: &[u8]) -> Result<(u32, u8), Fail> {
    match survey_in(alloc, text)? {
        Ok(_) => Ok((0, 0)),
        Err(RulesFault::At { line, kind }) => Ok((line, kind.number())),
        Err(RulesFault::OutOfMemory) => Err(Fail::from("out of memory")),
    }
}

/// Reads the text of each case, and asserts that its first fault has the line and the kind's number that
/// stand behind it.
fn compare_faults(rt: &impl Abort, alloc: Global, cases: &[(&[u8], u32, u8)]) -> Result<(), Fail> {
    for (text, line, kind) in cases {
        assert_eq!(rt; first_fault(alloc, text)?, (*line, *kind), "at {text:?}");
    }
    Ok(())
}

// Each kind once, where the line has faults of greater kinds too; then limits of numbers, and marks that mean
// nothing.
#[test]
fn the_least_kind_of_the_first_faulty_line_is_told(rt: HostRuntime) -> Result<(), Fail> {
    compare_faults(
        &rt,
        rt.alloc(),
        &[
            (b"number A\nB >= \xC3\nnumber A", 2, 1),
            (b"number A\n0.5 B >= >= 0", 2, 2),
            (b"number A\n\n0.5 B >= 0", 3, 3),
            (b"number A\ncode A weight 0 in {x, x}", 2, 4),
            (b"code B in {x}\nB in {y, y}", 2, 5),
            (b"code B weight 0 in {x, y, x}", 1, 6),
            (b"number A\ncode B in {x}\nif 0.5 A = 0 then B in {x}", 3, 7),
            (
                b"code B in {a,b,c,d,e,f,g,h,i,j,k,l,m,n,o,p,q,r,s,t,u,v,w,x,y,z,\
                A,B,C,D,E,F,G,H,I,J,K,L,M,N,O,P,Q,R,S,T,U,V,W,X,Y,Z,0,1,2,3,4,5,6,7,8,9,_,-,.}",
                1,
                8,
            ),
            (b"number A\ncode B in {x}\nif A = 0 then B in {x}", 3, 9),
            (b"number A weight 1001", 1, 7),
            (b"number A\n1000000001 A - A >= 0", 2, 7),
            (b"number A\n1000000000 A + A >= 0", 2, 7),
            (
                b"\xEF\xBB\xBFnumber A weight 1000\r\nA >= 0 # \xC3\r\n\n1000000000 A\t>=\t1\r",
                0,
                0,
            ),
        ],
    )
}

// The example of docs/rule-language.md, and how it is printed there.
#[test]
fn the_example_of_the_language_is_read_and_printed(rt: HostRuntime) -> Result<(), Fail> {
    let survey = survey_in(
        rt.alloc(),
        b"number Turnover weight 2 scale 1000     # the price of changing it, and the unit of distances
number Costs
number Profit
code Size in {small, medium, large}

Turnover - Costs = Profit
10 Profit <= 6 Turnover
if Size in {small} then Turnover <= 5000
if Profit > 100000 then Size not in {small}
",
    )??;
    let printed = print_rules(rt.alloc(), &survey)?;
    assert_eq!(rt;
        printed.as_slice(),
        b"number Turnover weight 2 scale 1000
number Costs weight 1 scale 1
number Profit weight 1 scale 1
code Size weight 1 in {small, medium, large}
Turnover - Costs - Profit = 0
-6 Turnover + 10 Profit <= 0
if Size in {small} then Turnover - 5000 <= 0
if Profit - 100000 > 0 then Size not in {small}
"
            .as_slice()
    );
    Ok(())
}
