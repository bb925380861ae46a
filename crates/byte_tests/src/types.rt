//! The arena of shared nodes, and names that are exported.
use code_tables::Basic;
use environments::is_exported;
use std::test::Fail;
use type_terms::{Arena, ArenaError, Node};

#[test]
fn one_node_fills_an_arena_of_one(rt: HostRuntime) -> Result<(), Fail> {
    let mut arena = Arena::new(rt.alloc(), 1);
    let first = arena.add(Node::Predeclared(Basic::Int));
    assert!(rt; first.is_ok());
    assert_eq!(rt; arena.add(Node::Predeclared(Basic::Int)), first);
    assert_eq!(rt;
        arena.add(Node::Predeclared(Basic::String)),
        Err(ArenaError::Full)
    );
    assert_eq!(rt; arena.len(), 1);
    assert_eq!(rt; arena.find(&Node::Predeclared(Basic::Int)), first.ok());
    assert_eq!(rt; arena.find(&Node::Predeclared(Basic::String)), None);
    Ok(())
}

#[test]
fn upper_case_letters_export(rt: HostRuntime) {
    assert!(rt; is_exported(b"Name"));
    assert!(rt; is_exported("\u{c9}t\u{e9}".as_bytes()));
    assert!(rt; is_exported(b"A\xff"));
    assert!(rt; !is_exported(b"name"));
    assert!(rt; !is_exported("\u{1c5}".as_bytes()));
    assert!(rt; !is_exported(b"_A"));
    assert!(rt; !is_exported(b"\xffA"));
    assert!(rt; !is_exported(b""));
}
