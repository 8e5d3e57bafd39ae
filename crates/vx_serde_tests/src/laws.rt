//! What the definitions say of the worked blob.

ghost use Rattle.std.specs.Prelude.{◌≡◌, length};
ghost use Rattle.vx_wire_tree.specs.Session.{SessionMeaning};
ghost use Rattle.vx_serde.specs.Spells.{blob_of};
ghost use Rattle.vx_serde_tests.specs.Worked.{integers, integers_blob, no_ids, unpadded};

/// The blob that is written for the integers 1, 2, 3, 4 under a context without identifiers: 168 bytes.
pub fn worked_blob()
    ensures bytes { (s : SessionMeaning) → blob_of s integers no_ids unpadded ≡ integers_blob }
    ensures size { length integers_blob ≡ 168 }
{}
