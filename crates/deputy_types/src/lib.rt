//! The types of a driver text: what its declarations and layouts are, as definitions, and the table of its types, in which names and types are held by number,
//! with what is looked up in it. A table is made in deputy_layouts.
#![tactic(auto)]

mod bounds;
mod dependence;
mod edges;
mod elem_sizes;
mod element;
mod element_list;
mod extent;
mod extents;
mod found;
mod global;
mod keys;
mod laying;
mod load_image;
mod member_list;
mod name_list;
mod refusal;
mod roles;
mod sibling;
mod siblings;
mod struct_names;
mod table;
mod typed_shapes;
mod types;
mod unit_items;
mod unit_layout;

pub use bounds::up_to;
pub use dependence::{bounds_name, has_names, shape_names};
pub use element::Element;
pub use element_list::ElementList;
pub use extent::Extent;
pub use extents::{
    arm_extent, greater, key_extent, natural, round_up_to, stars_extent, type_extent,
};
pub use found::Found;
pub use global::GlobalShape;
pub use keys::{
    are_constant, base_key, constant_sum, front_stars, is_char, last_star, pointed_key, star_key,
    stars_key, type_key,
};
pub use laying::{Arms, Laid, Laying, Scope};
pub use load_image::Image;
pub use member_list::MemberList;
pub use name_list::NameList;
pub use refusal::TypeRefusal;
pub use roles::declared_role;
pub use sibling::{MemberName, Role, Unannotated};
pub use siblings::Siblings;
pub use struct_names::StructNames;
pub use table::{GlobalPlace, TypeTable};
pub use typed_shapes::{shape_behind, typed_shape};
pub use types::Types;
pub use unit_items::Declared;
pub use unit_layout::Structs;
