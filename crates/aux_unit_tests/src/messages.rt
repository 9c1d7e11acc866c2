//! What no clause says: that messages are read with memory at hand, what worked bodies are read as, and what URIs and paths
//! are to each other.
use crate::tables::{Telling, others};
use lsp_wire::{inside, path_of_uri, read_body, root_of, uri_of_path};
use std::alloc::{AllocError, Global};
use std::test::Fail;

/// Tells what a body is read as, as Rust shows it.
#[derive(Drop)]
struct Bodies;

impl Telling for Bodies {
    fn told(&mut self, alloc: Global, line: &str) -> Result<String, Fail> {
        let body = read_body(alloc, line.as_bytes())?;
        Ok(format!(in alloc; "{body:?}")?)
    }
}

const BODIES: &str = r#" => NotJson
{ => NotJson
{"method":"exit"}x => NotJson
[] => Invalid
7 => Invalid
null => Invalid
"exit" => Invalid
[{"method":"exit"}] => Invalid
{} => Passed
{"id":1,"result":null} => Passed
{"id":{},"result":7} => Passed
{"id":null} => Passed
{"method":1} => Invalid
{"method":null,"id":1} => Invalid
{"method":"exit"} => Message(Message { id: None, asks: Exit })
{"id":1,"method":"exit"} => Message(Message { id: Some(Number(1)), asks: Exit })
{"id":null,"method":"exit"} => Invalid
{"id":true,"method":"exit"} => Invalid
{"id":1.0,"method":"exit"} => Invalid
{"id":1e0,"method":"exit"} => Invalid
{"id":-0,"method":"exit"} => Invalid
{"id":{},"method":"no/such"} => Invalid
{"id":true,"id":3,"method":"exit"} => Message(Message { id: Some(Number(3)), asks: Exit })
{"id":2147483647,"method":"shutdown"} => Message(Message { id: Some(Number(2147483647)), asks: Shutdown })
{"id":2147483648,"method":"shutdown"} => Invalid
{"id":-2147483648,"method":"shutdown"} => Message(Message { id: Some(Number(-2147483648)), asks: Shutdown })
{"id":-2147483649,"method":"shutdown"} => Invalid
{"id":"","method":"shutdown","params":7} => Message(Message { id: Some(Text(Text { text: "" })), asks: Shutdown })
{"id":"a","method":"no/such"} => Message(Message { id: Some(Text(Text { text: "a" })), asks: Unknown })
{"jsonrpc":"1.0","method":"$/cancelRequest","more":[]} => Message(Message { id: None, asks: Unknown })
{"method":"Exit"} => Message(Message { id: None, asks: Unknown })
{"method":"initialized","params":{}} => Message(Message { id: None, asks: Initialized })
{"id":0,"method":"initialize"} => Message(Message { id: Some(Number(0)), asks: Initialize { root: None } })
{"id":0,"method":"initialize","params":[]} => Message(Message { id: Some(Number(0)), asks: Initialize { root: None } })
{"id":0,"method":"initialize","params":{"rootUri":null}} => Message(Message { id: Some(Number(0)), asks: Initialize { root: None } })
{"id":0,"method":"initialize","params":{"rootUri":7}} => Message(Message { id: Some(Number(0)), asks: Initialize { root: None } })
{"id":0,"method":"initialize","params":{"capabilities":{},"rootUri":"file:///w/"}} => Message(Message { id: Some(Number(0)), asks: Initialize { root: Some(Text { text: "file:///w/" }) } })
{"method":"textDocument/didOpen","params":{"textDocument":{"uri":"u","languageId":"python","version":1,"text":"\u00e9"}}} => Message(Message { id: None, asks: DidOpen { uri: Text { text: "u" }, text: Text { text: "é" } } })
{"id":5,"method":"textDocument/didOpen","params":{"textDocument":{"uri":"u","text":""}}} => Message(Message { id: Some(Number(5)), asks: DidOpen { uri: Text { text: "u" }, text: Text { text: "" } } })
{"method":"textDocument/didOpen","params":{"textDocument":{"uri":"u"}}} => Message(Message { id: None, asks: WrongParams(DidOpen) })
{"method":"textDocument/didOpen","params":{"textDocument":{"uri":"u","text":null}}} => Message(Message { id: None, asks: WrongParams(DidOpen) })
{"method":"textDocument/didOpen","params":{"textDocument":{"uri":1,"text":"t"}}} => Message(Message { id: None, asks: WrongParams(DidOpen) })
{"method":"textDocument/didOpen"} => Message(Message { id: None, asks: WrongParams(DidOpen) })
{"method":"textDocument/didChange","params":{"textDocument":{"uri":"u"},"contentChanges":[]}} => Message(Message { id: None, asks: DidChange { uri: Text { text: "u" }, text: None } })
{"method":"textDocument/didChange","params":{"textDocument":{"uri":"u"},"contentChanges":[{"text":"a"}]}} => Message(Message { id: None, asks: DidChange { uri: Text { text: "u" }, text: Some(Text { text: "a" }) } })
{"method":"textDocument/didChange","params":{"textDocument":{"uri":"u"},"contentChanges":[{"text":"a"},{"text":"b","more":1}]}} => Message(Message { id: None, asks: DidChange { uri: Text { text: "u" }, text: Some(Text { text: "b" }) } })
{"method":"textDocument/didChange","params":{"textDocument":{"uri":"u"},"contentChanges":[{"range":{},"text":"a"}]}} => Message(Message { id: None, asks: WrongParams(DidChange) })
{"method":"textDocument/didChange","params":{"textDocument":{"uri":"u"},"contentChanges":[{"range":null,"text":"a"},{"text":"b"}]}} => Message(Message { id: None, asks: WrongParams(DidChange) })
{"method":"textDocument/didChange","params":{"textDocument":{"uri":"u"},"contentChanges":[{"text":"a"},{"text":1}]}} => Message(Message { id: None, asks: WrongParams(DidChange) })
{"method":"textDocument/didChange","params":{"textDocument":{"uri":"u"},"contentChanges":[{"text":"a"},7]}} => Message(Message { id: None, asks: WrongParams(DidChange) })
{"method":"textDocument/didChange","params":{"textDocument":{"uri":"u"},"contentChanges":{"text":"a"}}} => Message(Message { id: None, asks: WrongParams(DidChange) })
{"method":"textDocument/didChange","params":{"contentChanges":[]}} => Message(Message { id: None, asks: WrongParams(DidChange) })
{"method":"textDocument/didClose","params":{"textDocument":{"uri":"u"}}} => Message(Message { id: None, asks: DidClose { uri: Text { text: "u" } } })
{"method":"textDocument/didClose","params":{"uri":"u"}} => Message(Message { id: None, asks: WrongParams(DidClose) })
{"id":2,"method":"textDocument/definition","params":{"textDocument":{"uri":"u"},"position":{"line":0,"character":4294967295}}} => Message(Message { id: Some(Number(2)), asks: Definition { uri: Text { text: "u" }, at: Position { line: 0, character: 4294967295 } } })
{"method":"textDocument/definition","params":{"textDocument":{"uri":"u"},"position":{"line":1,"character":2}}} => Message(Message { id: None, asks: Definition { uri: Text { text: "u" }, at: Position { line: 1, character: 2 } } })
{"id":2,"method":"textDocument/definition","params":{"textDocument":{"uri":"u"},"position":{"line":0,"character":4294967296}}} => Message(Message { id: Some(Number(2)), asks: WrongParams(Definition) })
{"id":2,"method":"textDocument/definition","params":{"textDocument":{"uri":"u"},"position":{"line":-1,"character":0}}} => Message(Message { id: Some(Number(2)), asks: WrongParams(Definition) })
{"id":2,"method":"textDocument/definition","params":{"textDocument":{"uri":"u"},"position":{"line":0,"character":1.5}}} => Message(Message { id: Some(Number(2)), asks: WrongParams(Definition) })
{"id":2,"method":"textDocument/definition","params":{"textDocument":{"uri":"u"},"position":{"line":0}}} => Message(Message { id: Some(Number(2)), asks: WrongParams(Definition) })
{"id":2,"method":"textDocument/definition","params":{"textDocument":{"uri":"u"}}} => Message(Message { id: Some(Number(2)), asks: WrongParams(Definition) })
{"id":2,"method":"textDocument/definition","params":null} => Message(Message { id: Some(Number(2)), asks: WrongParams(Definition) })
{"id":3,"method":"textDocument/references","params":{"textDocument":{"uri":"u"},"position":{"line":0,"character":1},"context":{"includeDeclaration":true}}} => Message(Message { id: Some(Number(3)), asks: References { uri: Text { text: "u" }, at: Position { line: 0, character: 1 }, declaration: true } })
{"id":3,"method":"textDocument/references","params":{"textDocument":{"uri":"u"},"position":{"line":0,"character":1},"context":{"includeDeclaration":false}}} => Message(Message { id: Some(Number(3)), asks: References { uri: Text { text: "u" }, at: Position { line: 0, character: 1 }, declaration: false } })
{"id":3,"method":"textDocument/references","params":{"textDocument":{"uri":"u"},"position":{"line":0,"character":1},"context":{}}} => Message(Message { id: Some(Number(3)), asks: WrongParams(References) })
{"id":3,"method":"textDocument/references","params":{"textDocument":{"uri":"u"},"position":{"line":0,"character":1},"context":{"includeDeclaration":null}}} => Message(Message { id: Some(Number(3)), asks: WrongParams(References) })
{"id":3,"method":"textDocument/references","params":{"textDocument":{"uri":"u"},"position":{"line":0,"character":1}}} => Message(Message { id: Some(Number(3)), asks: WrongParams(References) })"#;

#[test]
fn bodies_are_read_as_what_they_are(rt: HostRuntime) -> Result<(), Fail> {
    assert_eq!(rt; others(rt.alloc(), &mut Bodies, BODIES)?.as_str(), "");
    Ok(())
}

/// Tells what a call gives of a URI or a path; `-` is none.
#[derive(Drop)]
struct Uris;

impl Telling for Uris {
    fn told(&mut self, alloc: Global, line: &str) -> Result<String, Fail> {
        Ok(uri_text(alloc, line)?)
    }
}

fn text_of(alloc: Global, bytes: Option<&[u8]>) -> Result<String, AllocError> {
    match bytes {
        Some(bytes) => String::from_str(alloc, std::str::from_utf8(bytes).unwrap_or("?")),
        None => String::from_str(alloc, "-"),
    }
}

fn path_text(alloc: Global, uri: &str) -> Result<String, AllocError> {
    match path_of_uri(alloc, uri)? {
        Some(path) => text_of(alloc, Some(path.as_slice())),
        None => text_of(alloc, None),
    }
}

fn root_text(alloc: Global, uri: &str) -> Result<String, AllocError> {
    let root = root_of(alloc, Some(uri))?;
    text_of(alloc, Some(root.as_slice()))
}

fn under_text(alloc: Global, both: &str) -> Result<String, AllocError> {
    let (root, path) = both.split_once(' ').unwrap_or((both, ""));
    text_of(alloc, inside(root.as_bytes(), path.as_bytes()))
}

fn uri_text(alloc: Global, row: &str) -> Result<String, AllocError> {
    let (call, argument) = row.split_once(' ').unwrap_or((row, ""));
    match call {
        "path" => path_text(alloc, argument),
        "uri" => uri_of_path(alloc, argument.as_bytes()),
        "root" => root_text(alloc, argument),
        _ => under_text(alloc, argument),
    }
}

const URIS: &str = "path file:///w/a.py => /w/a.py
path file:///w/%C3%A9.py => /w/é.py
path file:///w/%c3%a9.py => /w/é.py
path file:///w/é.py => /w/é.py
path file:///c%3A/x.py => /c:/x.py
path file:///a%25b => /a%b
path file:///a%2541 => /a%41
path file:// => 
path file://host/x => host/x
path file:///100% => -
path file:///a%2 => -
path file:///%zz/%41 => -
path file:///%%41 => -
path file:/w/a.py => -
path FILE:///w/a.py => -
path http://w/a.py => -
path  => -
uri /w/a.py => file:///w/a.py
uri /w/é b.py => file:///w/%C3%A9%20b.py
uri /aZ09-._~/ => file:///aZ09-._~/
uri /c:/100%/@+ => file:///c%3A/100%25/%40%2B
root file:///w/ => /w
root file:///w => /w
root file:///w// => /w/
root file:/// => 
root http://w => 
root file:///%zz => 
under /w /w/a.py => a.py
under /w /w/b/a.py => b/a.py
under /w /w/ => 
under /w /w => -
under /w /wx/a.py => -
under /w /v/a.py => -";

#[test]
fn uris_are_paths_and_paths_are_uris(rt: HostRuntime) -> Result<(), Fail> {
    assert_eq!(rt; others(rt.alloc(), &mut Uris, URIS)?.as_str(), "");
    Ok(())
}
