// Chain files: each refusal at its smallest example, where it comes and what it leaves.
use chain::refusals::{DraftRefusal, Refusal};
use chain_file::fields::FileChain;
use chain_file::readers::{Read, ReadError, Reader, RecordRefusal};
use chain_file::refusals::FileRefusal;
use std::alloc::Global;
use std::test::Fail;

// A record of one stage: name 1, period 20, deadline 12, pin 1, length 2.
const RECORD: &[u8; 18] = b"\
    \x00\x10\
    \x00\x01\x00\x00\x00\x14\x00\x00\x00\x0c\x01\
    \x01\x00\x00\x00\x02";

fn refused_header(bytes: &[u8]) -> Option<RecordRefusal> {
    Reader::open(bytes).err()
}

// The refusal of the first record behind a good header.
fn refused_record(heap: Global, record: &[u8]) -> Option<RecordRefusal> {
    let mut reader = Reader {
        boards: 4,
        read: 0,
        rest: record,
    };
    let mut place: Option<FileChain> = None;
    match reader.next(heap, &mut place) {
        Err(ReadError::Refused(refusal)) => Some(refusal),
        _ => None,
    }
}

fn refusal(at: u16, why: FileRefusal) -> Option<RecordRefusal> {
    Some(RecordRefusal { at, why })
}

#[test]
fn headers(rt: HostRuntime) {
    assert_eq!(rt; refused_header(&[]), refusal(0, FileRefusal::TooShort));
    assert_eq!(rt;
        refused_header(&[2]),
        refusal(0, FileRefusal::Version { version: 2 })
    );
    assert_eq!(rt; refused_header(&[1]), refusal(0, FileRefusal::TooShort));
    assert_eq!(rt;
        refused_header(&[1, 0]),
        refusal(0, FileRefusal::Boards { boards: 0 })
    );
    assert_eq!(rt;
        refused_header(&[1, 5]),
        refusal(0, FileRefusal::Boards { boards: 5 })
    );
    assert_eq!(rt; refused_header(&[1, 1]), None);
    assert_eq!(rt; refused_header(&[1, 4, 0]), None);
}

#[test]
fn numbers(rt: HostRuntime) {
    assert_eq!(rt; FileRefusal::Boards { boards: 5 }.number(), 5);
    assert_eq!(rt; FileRefusal::Version { version: 2 }.number(), 13);
    assert_eq!(rt; FileRefusal::TooShort.number(), 14);
    assert_eq!(rt; FileRefusal::RecordSize { length: 17 }.number(), 15);
    assert_eq!(rt; FileRefusal::TooManyChains.number(), 16);
    assert_eq!(rt; FileRefusal::Field(DraftRefusal::NoName).number(), 6);
}

#[test]
fn lengths_of_records(rt: HostRuntime) {
    let heap = rt.alloc();
    let record = *RECORD;
    assert_eq!(rt;
        refused_record(heap, &[0]),
        refusal(1, FileRefusal::TooShort)
    );
    assert_eq!(rt;
        refused_record(heap, &[0, 17]),
        refusal(1, FileRefusal::RecordSize { length: 17 })
    );
    assert_eq!(rt;
        refused_record(heap, &[0, 7]),
        refusal(1, FileRefusal::RecordSize { length: 7 })
    );
    assert_eq!(rt;
        refused_record(heap, &[0, 70]),
        refusal(1, FileRefusal::RecordSize { length: 70 })
    );
    assert_eq!(rt;
        refused_record(heap, &[0, 61]),
        refusal(1, FileRefusal::TooShort)
    );
    assert_eq!(rt;
        refused_record(heap, &record[0..17]),
        refusal(1, FileRefusal::TooShort)
    );
    assert_eq!(rt; refused_record(heap, RECORD), None);
}

// A copy of the record with one byte changed.
fn refused_with(heap: Global, at: usize, byte: u8) -> Option<RecordRefusal> {
    let mut record = *RECORD;
    if at < 18 {
        record[at] = byte;
    }
    refused_record(heap, &record)
}

#[test]
fn fields_of_records(rt: HostRuntime) {
    let heap = rt.alloc();
    assert_eq!(rt;
        refused_with(heap, 12, 2),
        refusal(1, FileRefusal::RecordSize { length: 16 })
    );
    assert_eq!(rt;
        refused_with(heap, 3, 0),
        refusal(1, FileRefusal::Field(DraftRefusal::NoName))
    );
    let times = DraftRefusal::Times {
        period: 20,
        deadline: 21,
    };
    assert_eq!(rt;
        refused_with(heap, 11, 21),
        refusal(1, FileRefusal::Field(times))
    );
    let pin = DraftRefusal::PinAbove { pin: 5 };
    assert_eq!(rt;
        refused_with(heap, 13, 5),
        refusal(1, FileRefusal::Field(pin))
    );
    let length = DraftRefusal::Length { length: 0 };
    assert_eq!(rt;
        refused_with(heap, 17, 0),
        refusal(1, FileRefusal::Field(length))
    );
}

// Sixteen records and one byte more: the byte is refused, and so it is when it is read again.
#[test]
fn a_byte_after_record_16_is_refused(rt: HostRuntime) -> Result<(), Fail> {
    let heap = rt.alloc();
    let mut bytes = Vec::new(heap);
    bytes.extend_from_slice(&[1, 2])?;
    for _ in 0..16u8 {
        bytes.extend_from_slice(RECORD)?;
    }
    bytes.push(9)?;
    let mut reader = Reader::open(bytes.as_slice())?;
    assert_eq!(rt; reader.boards, 2);
    let mut place = None;
    for _ in 0..16u8 {
        assert_eq!(rt; reader.next(heap, &mut place), Ok(Read::Chain));
    }
    let too_many = RecordRefusal {
        at: 17,
        why: FileRefusal::TooManyChains,
    };
    assert_eq!(rt;
        reader.next(heap, &mut place),
        Err(ReadError::Refused(too_many))
    );
    assert_eq!(rt;
        reader.next(heap, &mut place),
        Err(ReadError::Refused(too_many))
    );
    assert!(rt; place.is_some());
    Ok(())
}

#[test]
fn the_end_touches_nothing(rt: HostRuntime) -> Result<(), Fail> {
    let heap = rt.alloc();
    let mut reader = Reader {
        boards: 2,
        read: 0,
        rest: RECORD,
    };
    let mut place = None;
    assert_eq!(rt; reader.next(heap, &mut place), Ok(Read::Chain));
    assert_eq!(rt; reader.next(heap, &mut place), Ok(Read::End));
    assert_eq!(rt; reader.read, 1);
    let chain = place.ok_or_else(|| Fail::new("the place was emptied"))?;
    assert_eq!(rt; chain.heading.name, 1);
    assert_eq!(rt; chain.heading.deadline, 12);
    assert_eq!(rt; chain.stages.len(), 1);
    Ok(())
}
