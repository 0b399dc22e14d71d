ghost use Rattle.std.specs.Prelude.{◌≡◌, ◌<◌, ◌^◌, false, length, map};
ghost use Rattle.std.specs.Coded.{Coded-set, coded_list};
ghost use Rattle.source_trees.specs.contracts.item.Function as item_function;
ghost use Rattle.meaning_rules.specs.Bodies as bodies;
ghost use Rattle.meaning_rules.specs.Program.{function_scope, fields_of, methods_of};

use codon_base::Spelling;
use source_trees::{Class, Function};
use sqlite_items::Items;

/// A function with what its calls need to know, found once.
#[derive(Drop)]
pub(crate) struct Known<'m> {
    pub(crate) function: &'m Function,
    pub(crate) locals: Items<Spelling>,
    pub(crate) fixed: Items<Spelling>,
    pub(crate) yields: bool,
    pub(crate) gives_value: bool,
    ghost has_locals: { locals ≡ (function_scope false function.now).locals },
    ghost has_fixed: { fixed ≡ (function_scope false function.now).fixed },
    ghost is_generator: { yields ≡ bodies.yields function.now.body },
    ghost is_function: { gives_value ≡ bodies.gives_value function.now.body },
}

/// A function that is called, and whether it is the prelude's.
#[derive(Clone, Copy)]
pub(crate) struct Called<'m> {
    pub(crate) known: &'m Known<'m>,
    pub(crate) in_prelude: bool,
}

/// A class with its methods and the names of its fields in order.
#[derive(Drop)]
pub(crate) struct KnownClass<'m> {
    pub(crate) class: &'m Class,
    pub(crate) methods: Vec<Known<'m>>,
    pub(crate) fields: Items<Spelling>,
    ghost has_methods: { map (λ k. k.function.now) methods.items ≡ methods_of class.now } by { Coded-set (coded_list item_function.the_row.coded) (map (λ k. k.function.now) methods.items) (methods_of class.now) },
    ghost has_fields: { fields ≡ fields_of class.now },
}

/// A function, or a method with the name of its class.
#[derive(Clone, Copy)]
pub(crate) struct Callable<'m> {
    pub(crate) function: &'m Function,
    pub(crate) class_name: Option<&'m Spelling>,
}

/// A module as the run of its statements sees it, with the prelude.
#[derive(Drop)]
pub(crate) struct Prepared<'m> {
    pub(crate) functions: Vec<Known<'m>>,
    pub(crate) classes: Vec<KnownClass<'m>>,
    /// The functions and methods in the order of the text.
    pub(crate) callables: Vec<Callable<'m>>,
    pub(crate) variables: Items<Spelling>,
    pub(crate) prelude: Vec<Known<'m>>,
    ghost few_classes: { length classes.items < 2 ^ 32 },
}
