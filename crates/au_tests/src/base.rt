//! Each call once, and what no clause says: how words and signs are spelled, what the numbers of the
//! statuses are, and what faults print.

use au_base::*;
use std::test::Fail;

/// A text has the bytes that were put to it, and copies of texts and names have the same bytes.
#[test]
fn texts_and_names(rt: HostRuntime) -> Result<(), Fail> {
    let mut text = Text::new(rt.alloc());
    assert!(rt; text.is_empty());
    text.push(b'a')?;
    text.append(b"\xC3\xA9")?;
    assert_eq!(rt; text.len(), 3);
    let copy = text.copy(rt.alloc())?;
    assert_eq!(rt;
        Text::from_vec(copy.into_vec()).as_bytes(),
        b"a\xC3\xA9".as_slice()
    );
    let name = Name::copy_of(rt.alloc(), b"A.b")?;
    assert_eq!(rt; name.copy(rt.alloc())?.as_bytes(), b"A.b".as_slice());
    Ok(())
}

/// A sequence has its items in the order in which they were put.
#[test]
fn sequences(rt: HostRuntime) -> Result<(), Fail> {
    let mut items: Sequence<u32> = Sequence::new(rt.alloc());
    assert!(rt; items.is_empty());
    items.push(7)?;
    items.push(8)?;
    assert_eq!(rt; (*items.at(1), items.len()), (8, 2));
    assert_eq!(rt;
        Sequence::from_vec(items.into_vec()).as_slice(),
        [7, 8].as_slice()
    );
    Ok(())
}

/// A newline alone begins a line; every other byte is a column, tabs and parts of a letter among them.
#[test]
fn places(rt: HostRuntime) {
    let cases: [(&[u8], u32, u32); 7] = [
        (b"", 1, 1),
        (b"ab", 1, 3),
        (b"a\nb", 2, 2),
        (b"\n\n", 3, 1),
        (b"\ta\r", 1, 4),
        (b"x\r\n\t", 2, 2),
        (b"\xC3\xA9", 1, 3),
    ];
    for (bytes, line, column) in cases {
        assert!(rt; bytes.len() < 8);
        let want = Pos {
            file: 7,
            line,
            column,
        };
        assert_eq!(rt; Pos::start(7).after(bytes), want, "behind {bytes:?}");
    }
}

/// The number of each status.
#[test]
fn statuses(rt: HostRuntime) {
    let cases = [
        (Status::Success, 0),
        (Status::Failure, 1),
        (Status::Refused, 2),
        (Status::Abort, 3),
        (Status::Steps, 4),
        (Status::ReadFault, 5),
        (Status::WriteFault, 6),
        (Status::Memory, 7),
        (Status::Limit, 8),
        (Status::Missing, 9),
        (Status::Words, 64),
    ];
    for (status, number) in cases {
        assert_eq!(rt; status.number(), number, "{status:?}");
    }
}

/// How each keyword and each sign is spelled, in the order of the lists of all.
#[test]
fn spellings(rt: HostRuntime) -> Result<(), Fail> {
    let words = b"module body is end import as pragma constant type record union case when of do \
        function generic typeclass instance method let var if then else while for from to borrow in \
        return skip nil true false and or not Free Linear Type Region ";
    let mut joined = Text::new(rt.alloc());
    for keyword in Keyword::ALL {
        joined.append(keyword.spelling())?;
        joined.push(b' ')?;
    }
    assert_eq!(rt; joined.as_bytes(), words.as_slice());

    // A sign of two bytes stands before those of one byte, which it may begin with.
    let signs = b":= => -> &! &~ /= <= >= ( ) [ ] { } , ; : . & ! + - * / = < > ";
    let mut joined = Text::new(rt.alloc());
    for sign in Sign::ALL {
        joined.append(sign.spelling())?;
        joined.push(b' ')?;
    }
    assert_eq!(rt; joined.as_bytes(), signs.as_slice());
    Ok(())
}

/// The first file of a name is given whole up to 1,048,576 bytes; of a larger one comes one byte more.
#[test]
fn shelf(rt: HostRuntime) -> Result<(), Fail> {
    let mut files = Vec::new(rt.alloc());
    let named: [(&str, usize); 5] = [
        ("a", 3),
        ("a", 4),
        ("none", 0),
        ("most", 1_048_576),
        ("large", 1_048_578),
    ];
    for (name, size) in named {
        let bytes = vec![in rt.alloc(); b'x'; size]?;
        files.push((String::from_str(rt.alloc(), name)?, bytes))?;
    }
    let mut shelf = SureShelf::new(files);
    let cases: [(&str, Fetch, usize); 5] = [
        ("a", Fetch::Whole, 3),
        ("none", Fetch::Whole, 0),
        ("most", Fetch::Whole, 1_048_576),
        ("large", Fetch::TooLarge, 1_048_577),
        ("b", Fetch::Missing, 0),
    ];
    for (name, answer, size) in cases {
        let mut room = Vec::new(rt.alloc());
        assert_eq!(rt; shelf.fetch(name, &mut room), answer, "{name}");
        assert_eq!(rt; room.len(), size, "{name}");
    }
    Ok(())
}

/// A source gives its bytes in order, and behind the last its end, each time that it is asked.
#[test]
fn source(rt: HostRuntime) -> Result<(), Fail> {
    let mut source = SureSource::new(b"ab".to_vec(rt.alloc())?);
    assert_eq!(rt; source.next(), Next::Byte(b'a'));
    assert_eq!(rt; source.left(), b"b".as_slice());
    assert_eq!(rt; source.next(), Next::Byte(b'b'));
    assert_eq!(rt; source.next(), Next::End);
    assert_eq!(rt; source.next(), Next::End);
    Ok(())
}

/// A sink takes what it has room for, and nothing in the call that fails.
#[test]
fn sink(rt: HostRuntime) -> Result<(), Fail> {
    let mut sink = MemorySink::new(rt.alloc(), 5, [2].to_vec(rt.alloc())?)?;
    assert_eq!(rt; put_all(&mut sink, b"abc"), Ok(()));
    assert_eq!(rt;
        put_all(&mut sink, b"x"),
        Err(WriteFault),
        "its second call fails"
    );
    assert_eq!(rt; put_all(&mut sink, b""), Ok(()));
    assert_eq!(rt;
        put_all(&mut sink, b"defg"),
        Err(WriteFault),
        "two bytes have room"
    );
    assert_eq!(rt; sink.written(), b"abcde".as_slice());
    Ok(())
}

/// What faults print.
#[test]
fn faults(rt: HostRuntime) -> Result<(), Fail> {
    let shown = format!(in rt.alloc(); "{Memory}, {WriteFault}")?;
    assert_eq!(rt; shown.as_str(), "out of memory, a sink failed");
    Ok(())
}

/// The calls of a shelf and a source that are listed fail, and leave what was there.
#[test]
fn failing_calls(rt: HostRuntime) -> Result<(), Fail> {
    let mut files = Vec::new(rt.alloc());
    files.push((
        String::from_str(rt.alloc(), "a")?,
        b"ab".to_vec(rt.alloc())?,
    ))?;
    let mut shelf = MemoryShelf::new(files, [1, 3].to_vec(rt.alloc())?);
    let answers: [(&str, Fetch, usize); 4] = [
        ("a", Fetch::Failed, 0),
        ("a", Fetch::Whole, 2),
        ("b", Fetch::Failed, 0),
        ("b", Fetch::Missing, 0),
    ];
    for (name, answer, size) in answers {
        let mut room = Vec::new(rt.alloc());
        assert_eq!(rt; shelf.fetch(name, &mut room), answer, "{name}");
        assert_eq!(rt; room.len(), size, "{name}");
    }
    let mut source = MemorySource::new(b"ab".to_vec(rt.alloc())?, [2].to_vec(rt.alloc())?);
    assert_eq!(rt; source.next(), Next::Byte(b'a'));
    assert_eq!(rt; source.next(), Next::Failed);
    assert_eq!(rt; source.left(), b"b".as_slice());
    assert_eq!(rt; source.next(), Next::Byte(b'b'));
    assert_eq!(rt; source.next(), Next::End);
    assert_eq!(rt; NullSink.put(b"abc"), Put::Took(3));
    Ok(())
}
