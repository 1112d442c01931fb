//! `TypeTable`: the types of a text, and what the rules look up in it.
ghost use Rattle.std.specs.Prelude.{◌≡◌, IfOk, option_copied};
ghost use Rattle.deputy_types.specs.Declarations as declarations;
ghost use Rattle.deputy_types.specs.Extents.{AreExtents};
ghost use Rattle.deputy_types.specs.Table as table;
ghost use Rattle.deputy_types.specs.UnitLayout.{IsDeclared, table_of_parts};

use crate::dependence::{any_names, are_tagged_by};
use crate::elem_sizes::{elem_size, size_behind};
use crate::{
    Declared, Element, Extent, Image, NameList, Role, Siblings, StructNames, Structs, Types,
    Unannotated, base_key, declared_role, type_key, typed_shape,
};
use c_tree::TypeName;
use checked_tree::{CheckedFn, CheckedUnit, ImageBlock, Member, Shape, StructShape, UnionShape};
use sd_base::{Memory, Name};
use sqlite_items::Items;
use std::alloc::Global;
use std::marker::Model;

/// Where a global lies.
#[derive(Clone, Copy, PartialEq, Eq, Debug)]
pub struct GlobalPlace {
    /// The number of its block in the load image.
    pub block: u32,
    /// Whether it is an array.
    pub array: bool,
}

/// The types of a text: its structs, the types of elements, and the blocks of its load image, by number. The globals have the first blocks, in text order,
/// and the strings those behind. What is looked up by a name is found by hash.
#[derive(Drop)]
pub struct TypeTable {
    pub(crate) types: Types,
    /// The room of each struct.
    pub(crate) extents: Items<Extent>,
    pub(crate) elems: Items<Shape>,
    pub(crate) structs: Items<StructShape>,
    pub(crate) names: Items<StructNames>,
    pub(crate) image: Items<ImageBlock>,
    pub(crate) globals: NameList,
    /// By global: whether it is an array.
    pub(crate) arrays: Items<bool>,
    /// How many strings there are.
    pub(crate) literals: u32,
}

impl Model for TypeTable {
    ghost use Rattle.std.specs.Prelude.{ℕ, ◌+◌, ◌<◌, ◌^◌, length};
    ghost use Rattle.deputy_types.specs.Extents.{AreExtents};
    ghost use Rattle.deputy_types.specs.Table.{Table};

    ghost Value = { Table };

    ghost view = { λ t. record {
      types = t.types;
      extents = t.extents;
      elems = t.elems;
      structs = t.structs;
      names = t.names;
      image = t.image;
      globals = t.globals;
      arrays = t.arrays;
      literals = t.literals;
    } };

    ghost invariant = { λ t. (length t.globals + t.literals < 2 ^ 32) × AreExtents t.extents };
}

impl TypeTable {
    /// The table of these types, declarations, structs and load image. `elems` are the shapes of the types of elements, and `arrays` tells of each global whether it
    /// is an array.
    pub fn new(
        types: Types,
        declared: Declared,
        image: Image,
        structs: Structs,
        elems: Items<Shape>,
        arrays: Items<bool>,
    ) -> TypeTable
        requires { IsDeclared declared }
        ensures { result ≡ table_of_parts types declared image structs elems arrays }
    {
        let literals = declared.lines.len() as u32;
        let Declared {
            extents,
            names: globals,
            ..
        } = declared;
        let Structs { shapes, names } = structs;
        let Image { blocks, .. } = image;
        TypeTable {
            types,
            extents,
            elems,
            structs: shapes,
            names,
            image: blocks,
            globals,
            arrays,
            literals,
        }
    }

    /// The checked unit of these functions: the load image, the structs and the elements are moved into it.
    pub fn into_unit(self, functions: Items<CheckedFn>) -> CheckedUnit
        ensures functions { result.functions ≡ functions }
        ensures image { result.image ≡ self.image }
        ensures structs { result.structs ≡ self.structs }
        ensures elems { result.elems ≡ self.elems }
    {
        let TypeTable {
            elems,
            structs,
            image,
            ..
        } = self;
        CheckedUnit {
            functions,
            image,
            structs,
            elems,
        }
    }

    /// The names of the structs, and the types of elements.
    pub fn types(&self) -> &Types
        ensures { result.now ≡ self.now.types }
    {
        &self.types
    }

    /// The room of each struct, by its number.
    pub fn extents(&self) -> &[Extent]
        ensures extents { result.now ≡ self.now.extents }
        ensures fit { AreExtents self.now.extents }
    {
        self.extents.as_slice()
    }

    /// The shapes of the types of elements, by number: `char` first.
    pub fn elems(&self) -> &[Shape]
        ensures { result.now ≡ self.now.elems }
    {
        self.elems.as_slice()
    }

    /// The structs, in text order.
    pub fn structs(&self) -> &[StructShape]
        ensures { result.now ≡ self.now.structs }
    {
        self.structs.as_slice()
    }

    /// The blocks of the load image: the globals, then the strings, each in text order.
    pub fn image(&self) -> &[ImageBlock]
        ensures { result.now ≡ self.now.image }
    {
        self.image.as_slice()
    }

    /// The number of a struct. None where no struct has this name.
    pub fn structure(&self, name: &Name) -> Option<u32>
        ensures { result ≡ table.structure self.now name.now }
    {
        self.types.structs.number(name)
    }

    /// The number of a field that is no union, among the members of its struct. None where there is none.
    #[tactic(auto, unfolding(crate::specs::Table::field))]
    pub fn field(&self, structure: u32, name: &Name) -> Option<u32>
        ensures { result ≡ table.field self.now structure name.now }
    {
        match self.names.get(structure as usize) {
            Some(names) => names.members.number(None, name),
            None => None,
        }
    }

    /// The number of a union of a struct. None where there is none.
    #[tactic(auto, unfolding(crate::specs::Table::union_of))]
    pub fn union_of(&self, structure: u32, name: &Name) -> Option<u32>
        ensures { result ≡ table.union_of self.now structure name.now }
    {
        match self.names.get(structure as usize) {
            Some(names) => names.unions.number(name),
            None => None,
        }
    }

    /// The number of an arm of the union with the number `part`, among the members of its struct. None where there is none.
    #[tactic(auto, unfolding(crate::specs::Table::arm))]
    pub fn arm(&self, structure: u32, part: u32, name: &Name) -> Option<u32>
        ensures { result ≡ table.arm self.now structure part name.now }
    {
        match self.names.get(structure as usize) {
            Some(names) => names.members.number(Some(part), name),
            None => None,
        }
    }

    /// The block of a global. None where no global has this name.
    #[tactic(auto, unfolding(crate::specs::Table::global))]
    pub fn global(&self, name: &Name) -> Option<GlobalPlace>
        ensures { result ≡ table.global self.now name.now }
    {
        match self.globals.number(name) {
            Some(block) => match self.arrays.get(block as usize) {
                Some(array) => Some(GlobalPlace {
                    block,
                    array: *array,
                }),
                None => None,
            },
            None => None,
        }
    }

    /// The block of the `k`-th string, counted from 0. None where there are not so many.
    #[tactic(auto, unfolding(crate::specs::Table::literal))]
    pub fn literal(&self, k: u32) -> Option<u32>
        ensures { result ≡ table.literal self.now k }
    {
        if k < self.literals {
            return Some(self.globals.len() as u32 + k);
        }
        None
    }

    /// The number of a type in the list of elements. None where it is none: it has an annotation that is not constant, or no star, global or `kalloc` of the
    /// text has such an element.
    #[tactic(auto, unfolding(crate::specs::Table::elem))]
    pub fn elem(&self, name: &TypeName) -> Option<u32>
        ensures { result ≡ table.elem self.now name.now }
    {
        match type_key(&self.types, name) {
            Some(key) => self.types.elements.number(&key),
            None => None,
        }
    }

    /// The bytes of the element with this number. None where there is none.
    pub fn size_of_elem(&self, elem: u32) -> Option<u32>
        ensures { result ≡ table.size_of_elem self.now elem }
    {
        elem_size(&self.types.elements, self.extents.as_slice(), elem)
    }

    /// The bytes of the type that a type name names. None where it names none, or has an annotation that is not constant.
    #[tactic(auto, unfolding(crate::specs::Table::size))]
    pub fn size(&self, name: &TypeName) -> Option<u32>
        ensures { result ≡ table.size self.now name.now }
    {
        match base_key(&self.types.structs, &name.base) {
            Some(key) => size_behind(self.extents.as_slice(), &key, name.stars.as_slice()),
            None => None,
        }
    }

    /// The shape of the element with this number. None where there is none.
    pub fn shape_of_elem(&self, elem: u32) -> Option<&Shape>
        ensures { option_copied result ≡ table.shape_of_elem self.now elem }
    {
        self.elems.get(elem as usize)
    }

    /// The type of the element with this number. None where there is none.
    #[tactic(auto, unfolding(crate::specs::Table::element_at))]
    pub fn element_at(&self, elem: u32) -> Option<Element>
        ensures { result ≡ table.element_at self.now elem }
    {
        self.types.elements.get(elem)
    }

    /// The shape that a type name declares for the sibling at `place`. None where no rule derives it. A declaration with constant annotations alone has no
    /// siblings.
    pub fn declared_shape(
        &self,
        alloc: Global,
        plain: Unannotated,
        siblings: &Siblings,
        place: u32,
        name: &TypeName,
    ) -> Result<Option<Shape>, Memory>
        ensures { IfOk result (λ shape. shape ≡ declarations.declared_shape self.now plain siblings.now place name.now) }
    {
        let extents = self.extents.as_slice();
        typed_shape(alloc, &self.types, extents, plain, siblings, place, name)
    }

    /// What an annotation can make of a declaration: an array or not, a tag or not.
    pub fn declared_role(&self, array: bool, tag: bool, name: &TypeName) -> Role
        ensures { result ≡ declarations.declared_role self.now.types array tag name.now }
    {
        declared_role(&self.types, array, tag, name)
    }

    /// A member of a struct. None where there is none.
    pub fn member(&self, structure: u32, member: u32) -> Option<&Member>
        ensures { option_copied result ≡ table.member self.now structure member }
    {
        match self.structs.get(structure as usize) {
            Some(found) => found.members.get(member as usize),
            None => None,
        }
    }

    /// The shape of a member of a struct. None where there is none.
    pub fn member_shape(&self, structure: u32, member: u32) -> Option<&Shape>
        ensures { option_copied result ≡ table.member_shape self.now structure member }
    {
        match self.member(structure, member) {
            Some(found) => Some(&found.shape),
            None => None,
        }
    }

    /// How many bytes into its struct a member begins. None where there is none.
    #[tactic(auto, unfolding(crate::specs::Table::offset))]
    pub fn offset(&self, structure: u32, member: u32) -> Option<u32>
        ensures { result ≡ table.offset self.now structure member }
    {
        match self.member(structure, member) {
            Some(found) => Some(found.offset),
            None => None,
        }
    }

    /// A union of a struct. None where there is none.
    pub fn union_shape(&self, structure: u32, part: u32) -> Option<UnionShape>
        ensures { result ≡ table.union_shape self.now structure part }
    {
        match self.structs.get(structure as usize) {
            Some(found) => found.unions.get(part as usize).copied(),
            None => None,
        }
    }

    /// Whether a member is an array. It is none where there is no such member.
    #[tactic(auto, unfolding(crate::specs::Table::is_array))]
    pub fn is_array(&self, structure: u32, member: u32) -> bool
        ensures { result ≡ table.is_array self.now structure member }
    {
        match self.names.get(structure as usize) {
            Some(names) => match names.arrays.get(member as usize) {
                Some(array) => *array,
                None => false,
            },
            None => false,
        }
    }

    /// The type of a member, of an array that of an element. None where there is none, or its annotation is not constant.
    #[tactic(auto, unfolding(crate::specs::Table::member_key))]
    pub fn member_key(&self, structure: u32, member: u32) -> Option<Element>
        ensures { result ≡ table.member_key self.now structure member }
    {
        match self.names.get(structure as usize) {
            Some(names) => names.keys.get(member as usize).copied().flatten(),
            None => None,
        }
    }

    /// Whether the value of a member says which arm of a union is used.
    #[tactic(auto, unfolding(crate::specs::Table::is_tag))]
    pub fn is_tag(&self, structure: u32, member: u32) -> bool
        ensures { result ≡ table.is_tag self.now structure member }
    {
        match self.structs.get(structure as usize) {
            Some(found) => are_tagged_by(found.unions.as_slice(), member),
            None => false,
        }
    }

    /// Whether an annotation of its struct names a member.
    #[tactic(auto, unfolding(crate::specs::Table::is_named))]
    pub fn is_named(&self, structure: u32, member: u32) -> bool
        ensures { result ≡ table.is_named self.now structure member }
    {
        match self.structs.get(structure as usize) {
            Some(found) => any_names(found.members.as_slice(), member),
            None => false,
        }
    }
}
