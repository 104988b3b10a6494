//! Tests of members of an object, one by one, and of the texts of their faults.

use crate::tests::comparison::{assert_same, assert_text};
use chi_json::{
    MemberFault, ObjectFault, ShownText, json, number, opening_words, stated_bytes, stated_words,
};
use chi_script::Member;

const OBJECT: &[u8] = b"{\"op\":48,\"addr\":-1,\"lanes\":\"0aFF\",\"image\":\"0100000000000080\"}";

#[test]
fn members_of_an_object(rt: HostRuntime) {
    match json(rt.alloc(), OBJECT) {
        Ok(Some(object)) => {
            let bad = MemberFault::BadMember(Member::Lanes);
            let found: [Result<u64, MemberFault<Member>>; 4] = [
                number(&object, Member::Opcode, 48),
                number(&object, Member::Opcode, 47),
                number(&object, Member::Addr, u64::MAX),
                number(&object, Member::Size, 7),
            ];
            let wanted = [
                Ok(48),
                Err(MemberFault::BadMember(Member::Opcode)),
                Err(MemberFault::BadMember(Member::Addr)),
                Err(MemberFault::Missing(Member::Size)),
            ];
            assert_same(&rt, found, wanted);
            assert_same(&rt, stated_bytes(&object, Member::Lanes), Ok([0x0a, 0xff]));
            let short: Result<[u8; 3], MemberFault<Member>> = stated_bytes(&object, Member::Lanes);
            assert_same(&rt, short, Err(bad));
        }
        _ => panic!(rt; "no JSON"),
    }
}

#[test]
fn words_of_an_object(rt: HostRuntime) {
    let (mut are_stated, mut are_opening) = (false, false);
    if let Ok(Some(object)) = json(rt.alloc(), OBJECT) {
        if let Ok(Some(words)) = stated_words(rt.alloc(), &object, Member::Image, 1) {
            are_stated = words.as_slice() == [0x8000_0000_0000_0001].as_slice();
        }
        if let Ok(words) = opening_words(rt.alloc(), &object, Member::Requests, 2) {
            are_opening = words.as_slice() == [0, 0].as_slice();
        }
    }
    assert_same(&rt, (are_stated, are_opening), (true, true));
}

#[test]
fn texts_of_member_faults(rt: HostRuntime) {
    let missing = MemberFault::Missing(Member::Opcode);
    let bad = MemberFault::BadMember(Member::Opcode);
    assert_text(&rt, missing, "member op is missing");
    assert_text(&rt, bad, "member op is not as stated");
    let memory: MemberFault<Member> = MemberFault::Memory;
    assert_text(&rt, memory, "no memory");
    if let Ok(Some(object)) = json(rt.alloc(), OBJECT) {
        let missing = ObjectFault::of_member(&object, missing);
        assert_text(&rt, missing, "member op is missing");
        let bad = ObjectFault::of_member(&object, bad);
        assert_text(&rt, bad, "member op is 48, and not as stated");
    } else {
        panic!(rt; "no JSON");
    }
    let not_json: ObjectFault<Member> = ObjectFault::NotJson;
    assert_text(&rt, not_json, "is not JSON");
    let not_object: ObjectFault<Member> = ObjectFault::NotObject;
    assert_text(&rt, not_object, "is not an object");
    let unknown: ObjectFault<Member> = ObjectFault::UnknownMember(ShownText::of("ops"));
    assert_text(&rt, unknown, "has an unknown member ops");
    let memory: ObjectFault<Member> = ObjectFault::Memory;
    assert_text(&rt, memory, "no memory");
}
