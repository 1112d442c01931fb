//! Trees as lines of text, each part with its line. No call here can fail: what a function costs to prove grows faster than the calls in it
//! that can.
use c_tree::{
    Action, Addr, Annotation, Arm, Base, Binary, Body, Const, Declaration, Expr, Field, Function,
    GlobalItem, Head, Item, Local, Param, ResultBase, SignedTerm, Simple, Star, Stmt, StructItem,
    Term, TypeName, Unary, Unit,
};
use sd_base::Name;
use std::fmt::Write;

/// Adds a text. Where memory is wanting it is left out, and what is written is another text than the one that is wanted.
pub fn put(out: &mut String, text: &str) {
    let _ = out.push_str(text);
}

fn write_name(out: &mut String, name: &Name) {
    for byte in name.bytes() {
        let _ = out.push(char::from(*byte));
    }
}

pub fn write_after(out: &mut String, before: &str, name: &Name) {
    put(out, before);
    write_name(out, name);
}

pub fn write_number(out: &mut String, number: u32) {
    let _ = write!(out, "{number}");
}

pub fn write_character(out: &mut String, byte: u8) {
    put(out, "'");
    write_number(out, u32::from(byte));
    put(out, "'");
}

fn write_line(out: &mut String, line: u32) {
    write_number(out, line);
    put(out, " ");
}

// Types

fn write_unsigned(out: &mut String, term: &Term) {
    match term {
        Term::Number(number) => write_number(out, number.value),
        Term::Name(name) => write_name(out, name),
        Term::Product(number, name) => {
            write_number(out, number.value);
            write_after(out, "*", name);
        }
    }
}

fn write_term(out: &mut String, signed: &SignedTerm) {
    put(out, if signed.negative { "-" } else { "+" });
    write_unsigned(out, &signed.term);
}

fn write_end(out: &mut String, end: &Addr) {
    write_name(out, &end.pointer);
    match &end.offset {
        Some(term) => write_term(out, term),
        None => {}
    }
}

fn write_bound(out: &mut String, low: &Addr, high: &Addr) {
    put(out, "bound ");
    write_end(out, low);
    put(out, "..");
    write_end(out, high);
}

fn write_count(out: &mut String, terms: &[SignedTerm]) {
    put(out, "count");
    for term in terms {
        write_term(out, term);
    }
}

fn write_annotation(out: &mut String, annotation: &Annotation) {
    match annotation {
        Annotation::Safe => put(out, "safe"),
        Annotation::Sentinel => put(out, "sentinel"),
        Annotation::Nullterm => put(out, "nullterm"),
        Annotation::Count(sum) => write_count(out, sum.terms.as_slice()),
        Annotation::Bound(low, high) => write_bound(out, low, high),
    }
}

fn write_star(out: &mut String, star: &Star) {
    put(out, "*");
    match &star.annotation {
        Some(annotation) => write_annotation(out, annotation),
        None => {}
    }
}

fn write_stars(out: &mut String, stars: &[Star]) {
    for star in stars {
        write_star(out, star);
    }
}

fn write_plain(out: &mut String, base: &Base) {
    let _ = write!(out, "{base:?}");
}

fn write_base(out: &mut String, base: &Base) {
    match base {
        Base::Struct(name) => write_name(out, name),
        base => write_plain(out, base),
    }
}

fn write_type(out: &mut String, type_name: &TypeName) {
    write_base(out, &type_name.base);
    write_stars(out, type_name.stars.as_slice());
}

// Expressions

fn write_string(out: &mut String, length: usize, number: u32) {
    let _ = write!(out, "string {number} of {length}");
}

fn write_unary(out: &mut String, operator: Unary) {
    let _ = write!(out, "{operator:?} ");
}

fn write_binary(out: &mut String, operator: Binary) {
    let _ = write!(out, " {operator:?} ");
}

fn write_cast(out: &mut String, target: &TypeName) {
    put(out, "(cast ");
    write_type(out, target);
    put(out, " ");
}

fn write_sizeof(out: &mut String, measured: &TypeName) {
    put(out, "sizeof ");
    write_type(out, measured);
}

/// An expression that has no other in it.
fn write_leaf(out: &mut String, e: &Expr) {
    match e {
        Expr::Number(number) => write_number(out, number.value),
        Expr::Character(byte) => write_character(out, *byte),
        Expr::String(bytes, number) => write_string(out, bytes.len(), *number),
        Expr::Name(name) => write_name(out, name),
        Expr::Null => put(out, "null"),
        Expr::Sizeof(measured) => write_sizeof(out, measured),
        _ => {}
    }
}

/// An expression, each binary operator between its operands and in brackets.
pub fn write_expr(out: &mut String, e: &Expr) {
    match e {
        Expr::Grouped(inner) => {
            put(out, "[");
            write_expr(out, inner.get());
            put(out, "]");
        }
        Expr::Unary(operator, operand) => {
            write_unary(out, *operator);
            write_expr(out, operand.get());
        }
        Expr::Binary(operator, left, right) => {
            put(out, "(");
            write_expr(out, left.get());
            write_binary(out, *operator);
            write_expr(out, right.get());
            put(out, ")");
        }
        Expr::Cast(target, operand) => {
            write_cast(out, target);
            write_expr(out, operand.get());
            put(out, ")");
        }
        Expr::Field(of, name) => {
            write_expr(out, of.get());
            write_after(out, ".", name);
        }
        Expr::Arrow(of, name) => {
            write_expr(out, of.get());
            write_after(out, "->", name);
        }
        Expr::Index(of, index) => {
            put(out, "(");
            write_expr(out, of.get());
            put(out, " at ");
            write_expr(out, index.get());
            put(out, ")");
        }
        _ => write_leaf(out, e),
    }
}

fn write_word(out: &mut String, word: &str, e: &Expr) {
    put(out, word);
    write_expr(out, e);
}

// Statements

fn write_call(out: &mut String, function: &Name, arguments: &[Expr]) {
    write_after(out, "call ", function);
    for argument in arguments {
        write_word(out, ", ", argument);
    }
}

fn write_target(out: &mut String, target: &Name) {
    write_name(out, target);
    put(out, " = ");
}

fn write_assignment(out: &mut String, place: &Expr, value: &Expr) {
    write_expr(out, place);
    write_word(out, " = ", value);
}

fn write_kalloc(out: &mut String, target: &Name, element: &TypeName, count: &Expr) {
    write_target(out, target);
    put(out, "kalloc ");
    write_type(out, element);
    write_word(out, ", ", count);
}

fn write_action(out: &mut String, action: &Action) {
    match action {
        Action::Assign(place, value) => write_assignment(out, place.get(), value.get()),
        Action::Call(None, function, arguments) => write_call(out, function, arguments.as_slice()),
        Action::Call(Some(target), function, arguments) => {
            write_target(out, target);
            write_call(out, function, arguments.as_slice());
            ;
        }
        Action::Kalloc(target, element, count) => write_kalloc(out, target, element, count.get()),
        Action::Kfree(pointer) => write_word(out, "kfree ", pointer.get()),
        Action::Zero(place) => write_word(out, "zero ", place.get()),
        Action::Return(None) => put(out, "return"),
        Action::Return(Some(value)) => write_word(out, "return ", value.get()),
        Action::Empty => put(out, "nothing"),
    }
}

fn write_simple(out: &mut String, simple: &Simple) {
    write_line(out, simple.line);
    write_action(out, &simple.action);
    put(out, "; ");
}

fn write_test(out: &mut String, line: u32, word: &str, test: &Expr, behind: &str) {
    write_line(out, line);
    write_word(out, word, test);
    put(out, behind);
}

#[cycle(printed)]
fn write_body(out: &mut String, body: &Body) {
    match body {
        Body::Block(statements) => {
            put(out, "{ ");
            for statement in statements.as_slice() {
                write_statement(out, statement);
            }
            put(out, "} ");
        }
        Body::Single(simple) => write_simple(out, simple),
    }
}

#[cycle(printed)]
fn write_statement(out: &mut String, statement: &Stmt) {
    match statement {
        Stmt::Simple(simple) => write_simple(out, simple),
        Stmt::If(line, test, chosen, None) => {
            write_test(out, *line, "if ", test.get(), " then ");
            write_body(out, chosen);
        }
        Stmt::If(line, test, chosen, Some(other)) => {
            write_test(out, *line, "if ", test.get(), " then ");
            write_body(out, chosen);
            put(out, "else ");
            write_body(out, other);
        }
        Stmt::While(line, test, repeated) => {
            write_test(out, *line, "while ", test.get(), " do ");
            write_body(out, repeated);
        }
    }
}

// Items

fn write_const(out: &mut String, value: &Const) {
    match value {
        Const::Number(number) => write_number(out, number.value),
        Const::Negative(number) => {
            put(out, "-");
            write_number(out, number.value);
        }
        Const::Character(byte) => write_character(out, *byte),
    }
}

/// A line, a type and a name.
fn write_typed(out: &mut String, line: u32, type_name: &TypeName, name: &Name) {
    write_line(out, line);
    write_type(out, type_name);
    write_after(out, " ", name);
}

fn write_declaration(out: &mut String, line: u32, declaration: &Declaration) {
    write_typed(out, line, &declaration.type_name, &declaration.name);
    match &declaration.size {
        Some(number) => {
            put(out, "[");
            write_number(out, number.value);
            put(out, "]");
        }
        None => {}
    }
}

fn write_arm(out: &mut String, arm: &Arm) {
    put(out, ", ");
    write_typed(out, arm.line, &arm.type_name, &arm.name);
    write_after(out, " when ", &arm.tag);
    put(out, " is ");
    write_const(out, &arm.value);
}

fn write_union(out: &mut String, line: u32, arms: &[Arm], name: &Name) {
    write_line(out, line);
    write_after(out, "union ", name);
    for arm in arms {
        write_arm(out, arm);
    }
}

fn write_member(out: &mut String, field: &Field) {
    match field {
        Field::Plain(line, declaration) => write_declaration(out, *line, declaration),
        Field::Union(line, arms, name) => write_union(out, *line, arms.as_slice(), name),
    }
}

fn write_struct(out: &mut String, item: &StructItem) {
    write_line(out, item.line);
    write_after(out, "struct ", &item.name);
    put(out, ": ");
    for field in item.fields.as_slice() {
        write_member(out, field);
        put(out, "; ");
    }
}

fn write_global(out: &mut String, global: &GlobalItem) {
    put(out, if global.is_static { "static " } else { "" });
    write_declaration(out, global.line, &global.declaration);
    match &global.value {
        Some(value) => {
            put(out, " = ");
            write_const(out, value);
        }
        None => {}
    }
}

fn write_result(out: &mut String, head: &Head) {
    match &head.result {
        ResultBase::Void => put(out, "Void"),
        ResultBase::Base(base) => write_base(out, base),
    }
    write_stars(out, head.stars.as_slice());
}

fn write_params(out: &mut String, params: &[Param]) {
    for param in params {
        put(out, ", ");
        write_typed(out, param.line, &param.type_name, &param.name);
    }
}

fn write_head(out: &mut String, head: &Head) {
    put(out, if head.is_static { "static " } else { "" });
    write_line(out, head.line);
    write_result(out, head);
    write_after(out, " ", &head.name);
    put(out, if head.written_void { " (void)" } else { "" });
    write_params(out, head.params.as_slice());
}

fn write_locals(out: &mut String, locals: &[Local]) {
    put(out, " {\n");
    for local in locals {
        write_typed(out, local.line, &local.type_name, &local.name);
        put(out, "; ");
    }
}

fn write_statements(out: &mut String, statements: &[Stmt]) {
    for statement in statements {
        put(out, "\n");
        write_statement(out, statement);
    }
}

/// A function: its locals on a line, each statement of its body on a line, and the line on which it ends.
fn write_function(out: &mut String, function: &Function) {
    write_head(out, &function.head);
    write_locals(out, function.locals.as_slice());
    write_statements(out, function.body.as_slice());
    put(out, "\n} ");
    write_number(out, function.end);
}

fn write_item(out: &mut String, item: &Item) {
    match item {
        Item::Struct(item) => write_struct(out, item),
        Item::Global(global) => write_global(out, global),
        Item::Function(function) => write_function(out, function),
        Item::Prototype(head) => write_head(out, head),
    }
}

/// The items of a unit, each begun on a line of its own.
pub fn write_unit(out: &mut String, unit: &Unit) {
    for item in unit.items.as_slice() {
        write_item(out, item);
        put(out, "\n");
    }
}
