//! The reply that no session comes to, since it takes a billion versions; all others stand as rows.
use nav_proto::{PlainError, Reply, print_reply};
use std::test::Fail;

#[test]
fn spent_numbers_have_their_text(rt: HostRuntime) -> Result<(), Fail> {
    let reply = Reply::Plain(PlainError::Spent);
    assert_eq!(rt;
        print_reply(rt.alloc(), &reply)?.as_str(),
        "{\"error\":\"spent\"}"
    );
    Ok(())
}
