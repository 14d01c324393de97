mod scenes;
mod table;
mod texts;
mod words;

use scenes::first_wrong;
use std::test::Fail;
use table::TABLE;

#[test]
fn servers_answer_as_the_table_says(rt: HostRuntime) -> Result<(), Fail> {
    let alloc = rt.alloc();
    for block in TABLE.split("log ") {
        let wrong = first_wrong(alloc, block)?;
        assert!(rt; wrong.as_str() == "");
    }
    Ok(())
}
