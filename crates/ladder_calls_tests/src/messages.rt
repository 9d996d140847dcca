// What is said of lines that are no calls: one for each part that a line should have.
use ladder_calls::{Message, read_call};
use std::test::Fail;
use words::nth_word;

#[test]
fn of_lines_that_are_no_calls(rt: HostRuntime) -> Result<(), Fail> {
    let cases = [
        (
            "remove up 17",
            "line 3: expected `add` or `withdraw`, found `remove`",
        ),
        (
            "add 35.00",
            "line 3: expected `up` or `down`, found `35.00`",
        ),
        (
            "add up 35,00 5000 17",
            "line 3: expected the price in euros, with two decimals at most, found `35,00`",
        ),
        (
            "add up 35.00 5MW 17",
            "line 3: expected the quantity in whole kW, found `5MW`",
        ),
        (
            "withdraw up # 17",
            "line 3: expected the bid's number, found the end of the line",
        ),
        (
            "withdraw up 17 18",
            "line 3: expected the end of the line, found `18`",
        ),
    ];
    for (line, message) in cases {
        let fault = read_call(line.as_bytes()).err();
        let said = match fault.map(|fault| fault.in_line(2)) {
            Some(fault) => {
                let word = nth_word(line.as_bytes(), fault.word);
                format!(in rt.alloc(); "{}", Message { fault, word })?
            }
            None => String::new(rt.alloc()),
        };
        assert_eq!(rt; said.as_str(), message);
    }
    Ok(())
}
