//! Other buffers at the root, by encoding.

ghost use Rattle.std.specs.Prelude.{◌≡◌, IfOk, IfErr, Some};
ghost use Rattle.vx_scalars.specs.Stats.{no_stats};
ghost use Rattle.vx_array_tree.specs.Sound.{IsSound};
ghost use Rattle.vx_array_tree.specs.Tree.{Tree, with_stats};
ghost use Rattle.vx_arrays.specs.NewBuffers.{RefusesBuffers, with_buffers};
ghost use Rattle.vx_arrays.specs.Refused.{IsOkOrMemory};

use crate::array::Array;
use crate::body::Body;
use crate::encodings::null::NullArray;
use crate::new_buffers::without_buffers;
use std::alloc::Global;
use vx_buffer::BufferHandles;
use vx_rows::ArrayError;

impl Array {
    // The same array without statistics and with these buffers at its root, as the root's encoding makes it.
    #[tactic(auto, using(crate::proofs::Untold::untold_node))]
    pub(crate) fn untold_with(
        &self,
        alloc: Global,
        buffers: BufferHandles,
    ) -> Result<Array, ArrayError>
        ensures ok { IfOk result (λ a. with_buffers (with_stats no_stats self.now) buffers ≡ Some a) }
        ensures sound { IfOk result IsSound }
        ensures err { IfErr result (λ e. RefusesBuffers e (with_stats no_stats self.now) buffers) }
        ensures complete { (t : Tree) → with_buffers (with_stats no_stats self.now) buffers ≡ Some t → IsSound t → IsOkOrMemory result }
    {
        let (dtype, len) = (&self.dtype, self.len);
        let children = self.children.as_slice();
        match &self.body {
            Body::Null => NullArray::with_buffers(alloc, dtype, len, children, buffers),
            Body::Primitive(numbers) => numbers.with_buffers(alloc, dtype, len, children, buffers),
            Body::Bool(flags) => flags.with_buffers(alloc, dtype, len, children, buffers),
            Body::Decimal(decimals) => decimals.with_buffers(alloc, dtype, len, children, buffers),
            Body::VarBin(parts) => parts.with_buffers(alloc, dtype, len, children, buffers),
            Body::VarBinView(views) => views.with_buffers(alloc, dtype, len, children, buffers),
            Body::FixedSizeList => {
                without_buffers(alloc, dtype, len, Body::FixedSizeList, children, buffers)
            }
            Body::Struct => without_buffers(alloc, dtype, len, Body::Struct, children, buffers),
            Body::Ext => without_buffers(alloc, dtype, len, Body::Ext, children, buffers),
            Body::List => without_buffers(alloc, dtype, len, Body::List, children, buffers),
            Body::Union => without_buffers(alloc, dtype, len, Body::Union, children, buffers),
            Body::Dict(flag) => {
                let body = Body::Dict(flag.clone());
                without_buffers(alloc, dtype, len, body, children, buffers)
            }
            Body::ListView(views) => {
                let body = Body::ListView(views.again());
                without_buffers(alloc, dtype, len, body, children, buffers)
            }
            Body::Map => without_buffers(alloc, dtype, len, Body::Map, children, buffers),
            Body::Variant => without_buffers(alloc, dtype, len, Body::Variant, children, buffers),
            Body::Foreign(foreign) => foreign.with_buffers(alloc, dtype, len, children, buffers),
        }
    }
}
