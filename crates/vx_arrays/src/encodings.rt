//! One module for each encoding.

pub(crate) mod bool;
pub(crate) mod decimal;
pub(crate) mod dict;
pub(crate) mod extension;
pub(crate) mod fixed_size_list;
pub(crate) mod foreign;
pub(crate) mod list_view;
pub(crate) mod lists;
pub(crate) mod map;
pub(crate) mod null;
pub(crate) mod primitive;
pub(crate) mod structs;
pub(crate) mod union;
pub(crate) mod varbin;
pub(crate) mod varbinview;
pub(crate) mod variant;
