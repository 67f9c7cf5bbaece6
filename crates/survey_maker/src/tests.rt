//! What is made from some numbers to start from. The rows were computed by a program in another
//! language, from what is drawn and what follows from that.
use crate::{records_text, rules_text};
use edit_language::{print_rules, read_rules};
use std::alloc::Global;
use std::process::Abort;
use std::test::Fail;

/// Numbers to start from, how many rows are made, and the file. The third row from 6 has a number left
/// out, and the fifth from 4294967295 one that is ten times itself and 1 more.
const FILES: &[(u32, u32, &[u8])] = &[
    (
        0,
        0,
        b"id,Turnover,Goods,Bought,Wages,Social,Other,Costs,Profit,Staff,Full,Part,Invest,Activity,Size,Region,Form
",
    ),
    (
        1,
        3,
        b"id,Turnover,Goods,Bought,Wages,Social,Other,Costs,Profit,Staff,Full,Part,Invest,Activity,Size,Region,Form
1,17359,8700,34,4060,812,295,13901,3458,203,11,192,22,industry,medium,east,company
2,10043,8120,890,80,16,495,9601,442,4,0,4,5,service,micro,south,sole
3,11792,8720,121,360,72,468,9741,2051,18,18,0,18,farm,small,south,sole
",
    ),
    (
        6,
        3,
        b"id,Turnover,Goods,Bought,Wages,Social,Other,Costs,Profit,Staff,Full,Part,Invest,Activity,Size,Region,Form
1,7523,390,284,5040,1008,315,7037,486,252,135,117,36,trade,large,west,company
2,13354,8200,261,3520,704,381,13066,288,176,91,85,21,service,medium,north,company
3,9650,7760,431,580,116,306,9193,457,29,,15,3,farm,small,east,sole
",
    ),
    (
        4294967295,
        5,
        b"id,Turnover,Goods,Bought,Wages,Social,Other,Costs,Profit,Staff,Full,Part,Invest,Activity,Size,Region,Form
1,12177,2510,270,5720,1144,459,10103,2074,286,78,208,0,service,large,north,company
2,20635,0,231,14980,2996,28,18235,2400,749,733,16,2,farm,large,south,company
3,12564,140,908,8600,1720,4,11372,1192,430,16,414,22,service,large,west,company
4,4132,3030,150,80,16,39,3315,817,4,1,3,11,service,micro,west,company
5,7201,5910,220,180,36,419,6765,436,9,61,3,31,farm,micro,south,sole
",
    ),
];

/// Makes each record file of the table, from its start and its number of rows. It compares each, byte for
/// byte, with the file that stands behind these. The test ends at the first that differs.
fn compare_files(rt: &impl Abort, alloc: Global, cases: &[(u32, u32, &[u8])]) -> Result<(), Fail> {
    for (start, rows, file) in cases {
        let text = records_text(alloc, *start, *rows)?;
        assert_eq!(rt; text.as_slice(), *file, "from {start}");
    }
    Ok(())
}

// Record files from four numbers to start from, compared byte for byte.
#[test]
fn rows_follow_from_the_number_to_start_from(rt: HostRuntime) -> Result<(), Fail> {
    compare_files(&rt, rt.alloc(), FILES)
}

/// The survey in other words: rules as one would write them.
const SURVEY: &[u8] = b"number Turnover weight 2 scale 1000
number Goods scale 1000
number Bought scale 1000
number Wages scale 1000
number Social scale 1000
number Other scale 1000
number Costs weight 2 scale 1000
number Profit scale 1000
number Staff scale 1000
number Full scale 1000
number Part scale 1000
number Invest scale 1000
code Activity in {farm, industry, trade, service}
code Size in {micro, small, medium, large}
code Region in {north, south, east, west}
code Form in {sole, company, public}
Turnover >= 0
Goods >= 0
Bought >= 0
Wages >= 0
Social >= 0
Other >= 0
Costs >= 0
Staff >= 0
Full >= 0
Part >= 0
Invest >= 0
Goods + Bought + Wages + Social + Other - Costs = 0
Turnover - Costs - Profit = 0
10 Profit <= 6 Turnover
10 Profit + 5 Turnover >= 0
Full + Part - Staff = 0
Social <= Wages
Invest <= 2 Turnover
Wages >= 5 Full
Wages <= 100 Staff
if Size in {micro} then Staff <= 9
if Size in {small} then Staff >= 10
if Size in {small} then Staff <= 49
if Size in {medium} then Staff >= 50
if Size in {medium} then Staff <= 249
if Size in {large} then Staff >= 250
if Form in {sole} then Size in {micro, small}
if Activity in {farm} then Form not in {public}
if Size in {large} then Form not in {sole}
if Invest > 1000000 then Size not in {micro}
";

// The rules as one would write them, read and printed, are the rule file that is made.
#[test]
fn the_rule_file_is_the_survey_as_it_is_printed(rt: HostRuntime) -> Result<(), Fail> {
    let survey = read_rules(rt.alloc(), SURVEY)?;
    let printed = print_rules(rt.alloc(), &survey)?;
    assert_eq!(rt; rules_text(rt.alloc())?.as_slice(), printed.as_slice());
    Ok(())
}
