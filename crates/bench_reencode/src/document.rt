//! A document: a message that nests its own kind.

ghost use Rattle.std.specs.Prelude.{refl};
ghost use Rattle.std.proofs.Common.{arith};
ghost use Rattle.bench_reencode.specs.Document.{document_lists};

use vx_proto::{Kind, MessageKind, PlainMessage, ScalarKind, Schema, Slot};

const SCHEMA: Schema = Schema {
    messages: &[&[
        Slot::Plain(1, ScalarKind::Bytes),
        Slot::Repeated(2, Kind::Message(0)),
    ]],
};

/// The kind of documents: a section, which has a body and the sections in it.
#[derive(Debug)]
pub struct DocumentMessage;

impl MessageKind for DocumentMessage {
    ghost schema = { document_lists };

    ghost place = { 0 };

    fn lists() -> Schema {
        SCHEMA
    }

    fn schema_place() -> u32 {
        0
    }

    ghost lawful = { refl };

    ghost placed = { Prim.omega arith };
}

/// A document.
pub type Document = PlainMessage<DocumentMessage>;
