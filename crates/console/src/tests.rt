// A run of messages on an example.
use crate::{Feed, unshow};
use std::test::Fail;

// An order, and a second one whose member has a leading zero.
#[test]
fn stops_at_the_wrong_field(rt: HostRuntime) -> Result<(), Fail> {
    let mut run =
        *b"8=FIX.4.4|9=39|35=D|49=7|34=1|11=1|54=2|38=10|44=1000|10=193|8=FIX.4.4|9=20|35=F|49=07|34=1|41=1|10=000|";
    unshow(&mut run);
    let mut feed = Feed::new(&run);
    let Some(first) = feed.next() else {
        return Err(Fail::new("no message"));
    };
    assert!(rt; first.is_ok());
    assert!(rt; feed.place() == 61 && feed.taken() == 1);
    let Some(second) = feed.next() else {
        return Err(Fail::new("no second message"));
    };
    let Err(stopped) = second else {
        return Err(Fail::new("taken"));
    };
    assert_eq!(rt; stopped.why.number(), 11);
    assert!(rt; stopped.message == 2 && stopped.byte == 81);
    assert!(rt; feed.place() == 61 && feed.taken() == 1);
    Ok(())
}

#[test]
fn goes_over_the_messages(rt: HostRuntime) {
    let mut run =
        *b"8=FIX.4.4|9=20|35=F|49=1|34=1|41=1|10=108|8=FIX.4.4|9=20|35=F|49=1|34=1|41=1|10=107|";
    unshow(&mut run);
    let mut feed = Feed::new(&run);
    assert_eq!(rt; feed.messages().count(), 2);
    assert!(rt; feed.taken() == 1 && feed.place() == 42);
}

#[test]
fn nothing_is_the_end(rt: HostRuntime) {
    let mut feed = Feed::new(b"");
    assert!(rt; feed.next().is_none());
}
