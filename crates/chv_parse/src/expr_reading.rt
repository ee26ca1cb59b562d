// Expressions, read an operation at a time.
ghost use Rattle.std.specs.Prelude.{◌≡◌, ◌≤◌, ◌<◌, ◌+◌, suc, IfOk, IfSome};
ghost use Rattle.chv_parse.specs.Reading.{Reads};
ghost use Rattle.chv_parse.specs.ExprReading.{read_expr, read_at, read_inside, read_chain, read_operand, read_unary, read_atom, read_named, read_call, read_arguments, read_star, read_some, read_more, read_next, read_nested, read_opening, read_literal, climb, onward, leaf, over, between, calling, no_arguments, with_argument};

use crate::ParseFault;
use crate::cursor::Cursor;
use crate::operation::{left_level, level_of, operation_next, unary_level, unary_mark};
use chv_ast::{Args, BinaryOp, Expr, Literal, Name, UnaryOp};
use sqlite_items::Boxed;
use std::alloc::{AllocError, Global};

/// An expression that was read: how tightly it binds, and how deep its tree is.
#[derive(Drop)]
pub struct Operand {
    pub expr: Expr,
    pub level: usize,
    pub depth: usize,
}

/// The arguments of a call: the list, and the depth of the deepest, 0 where there are none.
#[derive(Drop)]
pub struct Arguments {
    pub list: Args,
    pub depth: usize,
}

// An expression that stands by itself and is one deep.
fn leaf(expr: Expr) -> Operand
    ensures { result ≡ leaf expr }
{
    Operand {
        expr,
        level: 7,
        depth: 1,
    }
}

// An operation with one operand.
fn over(alloc: Global, op: UnaryOp, arg: Operand) -> Result<Operand, AllocError>
    requires { arg.depth < 128 }
    ensures { IfOk result (λ made. made ≡ over op arg) }
{
    let Operand {
        expr,
        level: _,
        depth,
    } = arg;
    Ok(Operand {
        expr: Expr::Unary {
            op,
            arg: Boxed::new(alloc, expr)?,
        },
        level: unary_level(op),
        depth: depth + 1,
    })
}

// An operation with two operands.
fn between(
    alloc: Global,
    op: BinaryOp,
    left: Operand,
    right: Operand,
) -> Result<Operand, AllocError>
    requires left { left.depth < 128 }
    requires right { right.depth < 128 }
    ensures { IfOk result (λ made. made ≡ between op left right) }
{
    let deeper = usize::max(left.depth, right.depth);
    Ok(Operand {
        expr: Expr::Binary {
            op,
            left: Boxed::new(alloc, left.expr)?,
            right: Boxed::new(alloc, right.expr)?,
        },
        level: level_of(op),
        depth: deeper + 1,
    })
}

// A call.
fn calling(function: Name, arguments: Arguments) -> Operand
    requires { arguments.depth < 128 }
    ensures { result ≡ calling function arguments }
{
    Operand {
        expr: Expr::Call {
            function,
            args: arguments.list,
        },
        level: 7,
        depth: arguments.depth + 1,
    }
}

// No arguments.
fn no_arguments() -> Arguments
    ensures { result ≡ no_arguments }
{
    Arguments {
        list: Args::End,
        depth: 0,
    }
}

// One more argument in front.
fn with_argument(alloc: Global, first: Operand, rest: Arguments) -> Result<Arguments, AllocError>
    ensures { IfOk result (λ made. made ≡ with_argument first rest) }
{
    let depth = usize::max(first.depth, rest.depth);
    Ok(Arguments {
        list: Args::More(
            Boxed::new(alloc, first.expr)?,
            Boxed::new(alloc, rest.list)?,
        ),
        depth,
    })
}

// The operation that goes on behind a left operand.
#[tactic(auto, unfolding(crate::specs::ExprReading::onward, crate::specs::ExprReading::takes))]
fn onward(cursor: &Cursor, room: usize, level: usize, left: &Operand) -> Option<BinaryOp>
    ensures next { result ≡ onward room level left.now cursor.now }
    ensures shallow { IfSome result (λ op. left.now.depth ≤ room) }
{
    match operation_next(cursor) {
        Some(op) => {
            if level <= level_of(op) && left_level(op) <= left.level && left.depth <= room {
                Some(op)
            } else {
                None
            }
        }
        None => None,
    }
}

// An opening parenthesis, if so many more may be open.
#[tactic(auto, unfolding(crate::specs::ExprReading::read_opening))]
fn opening(cursor: &mut Cursor, nest: usize) -> Result<(), ParseFault>
    ensures { Reads (read_opening nest) cursor.old result cursor.new }
{
    if nest == 0 {
        Err(ParseFault::Syntax)
    } else {
        cursor.sign(b"(")
    }
}

// The star of count(*).
#[tactic(auto, unfolding(crate::specs::ExprReading::read_star))]
fn star(cursor: &mut Cursor, function: &Name) -> Result<Arguments, ParseFault>
    ensures read { Reads (read_star function.now) cursor.old result cursor.new }
    ensures shallow { IfOk result (λ read. read.depth ≡ 0) }
{
    if function.as_slice().eq_ignore_ascii_case(b"COUNT") {
        cursor.sign(b"*")?;
        Ok(no_arguments())
    } else {
        Err(ParseFault::Syntax)
    }
}

// An expression with at most `nest` open parentheses, at most `room` deep, that binds as tightly as the level says.
#[cycle(expr)]
fn read_at(
    cursor: &mut Cursor,
    alloc: Global,
    nest: usize,
    room: usize,
    level: usize,
) -> Result<Operand, ParseFault>
    requires bound { room ≤ 128 }
    ensures read { Reads (read_at nest room level) cursor.old result cursor.new }
    ensures shallow { IfOk result (λ read. read.depth ≤ room) }
{
    if room == 0 {
        return Err(ParseFault::Syntax);
    }
    chain(cursor, alloc, nest, room - 1, level)
}

// An operand, and the operations that go on behind it.
#[cycle(expr)]
#[tactic(auto, unfolding(crate::specs::ExprReading::read_chain))]
fn chain(
    cursor: &mut Cursor,
    alloc: Global,
    nest: usize,
    room: usize,
    level: usize,
) -> Result<Operand, ParseFault>
    requires bound { room < 128 }
    ensures read { Reads (read_chain (read_at nest room) nest (read_inside nest) room level) cursor.old result cursor.new }
    ensures shallow { IfOk result (λ read. read.depth ≤ suc room) }
{
    let first = first_operand(cursor, alloc, nest, room, level)?;
    climb(cursor, alloc, nest, room, level, first)
}

// The operations that go on behind a left operand.
#[cycle(expr)]
fn climb(
    cursor: &mut Cursor,
    alloc: Global,
    nest: usize,
    room: usize,
    level: usize,
    first: Operand,
) -> Result<Operand, ParseFault>
    requires bound { room < 128 }
    requires shallow { first.depth ≤ suc room }
    ensures read { Reads (climb (read_at nest room) room level room first) cursor.old result cursor.new }
    ensures shallow { IfOk result (λ read. read.depth ≤ suc room) }
{
    let mut left = first;
    for _ in 0..room {
        match onward(cursor, room, level, &left) {
            Some(op) => {
                cursor.pass();
                let right = read_at(cursor, alloc, nest, room, level_of(op) + 1)?;
                left = between(alloc, op, left, right)?;
            }
            None => return Ok(left),
        }
    }
    Ok(left)
}

// An operand: an operation with one operand, or what stands by itself.
#[cycle(expr)]
#[tactic(auto, unfolding(crate::specs::ExprReading::read_operand))]
fn first_operand(
    cursor: &mut Cursor,
    alloc: Global,
    nest: usize,
    room: usize,
    level: usize,
) -> Result<Operand, ParseFault>
    requires bound { room < 128 }
    ensures read { Reads (read_operand (read_at nest room) nest (read_inside nest) room level) cursor.old result cursor.new }
    ensures shallow { IfOk result (λ read. read.depth ≤ suc room) }
{
    if cursor.next_is_keyword(b"NOT") {
        unary(cursor, alloc, nest, room, level, UnaryOp::Not)
    } else if cursor.next_is_sign(b"-") {
        unary(cursor, alloc, nest, room, level, UnaryOp::Minus)
    } else {
        atom(cursor, alloc, nest, room)
    }
}

// An operation with one operand, if it binds as tightly as the level says.
#[cycle(expr)]
#[tactic(auto, unfolding(crate::specs::ExprReading::read_unary))]
fn unary(
    cursor: &mut Cursor,
    alloc: Global,
    nest: usize,
    room: usize,
    level: usize,
    op: UnaryOp,
) -> Result<Operand, ParseFault>
    requires bound { room < 128 }
    ensures read { Reads (read_unary (read_at nest room) level op) cursor.old result cursor.new }
    ensures shallow { IfOk result (λ read. read.depth ≤ suc room) }
{
    if level <= unary_level(op) {
        unary_mark(cursor, op)?;
        let arg = read_at(cursor, alloc, nest, room, unary_level(op))?;
        let made = over(alloc, op, arg)?;
        Ok(made)
    } else {
        Err(ParseFault::Syntax)
    }
}

// What stands by itself.
#[cycle(expr)]
#[tactic(auto, unfolding(crate::specs::ExprReading::read_atom))]
fn atom(cursor: &mut Cursor, alloc: Global, nest: usize, room: usize) -> Result<Operand, ParseFault>
    requires bound { room < 128 }
    ensures read { Reads (read_atom nest (read_inside nest) room) cursor.old result cursor.new }
    ensures shallow { IfOk result (λ read. read.depth ≤ suc room) }
{
    if cursor.next_is_sign(b"(") {
        nested(cursor, alloc, nest, room + 1)
    } else if cursor.next_is_name() {
        named(cursor, alloc, nest, room)
    } else {
        let value = cursor.literal(alloc)?;
        Ok(leaf(Expr::Literal(value)))
    }
}

// An expression in parentheses.
#[cycle(expr)]
#[tactic(auto, unfolding(crate::specs::ExprReading::read_nested))]
fn nested(
    cursor: &mut Cursor,
    alloc: Global,
    nest: usize,
    room: usize,
) -> Result<Operand, ParseFault>
    requires bound { room ≤ 128 }
    ensures read { Reads (read_nested nest (read_inside nest room)) cursor.old result cursor.new }
    ensures shallow { IfOk result (λ read. read.depth ≤ room) }
{
    opening(cursor, nest)?;
    let e = inside(cursor, alloc, nest, room)?;
    cursor.sign(b")")?;
    Ok(Operand {
        expr: e.expr,
        level: 7,
        depth: e.depth,
    })
}

// An expression inside of a parenthesis.
#[cycle(expr)]
fn inside(
    cursor: &mut Cursor,
    alloc: Global,
    nest: usize,
    room: usize,
) -> Result<Operand, ParseFault>
    requires bound { room ≤ 128 }
    ensures read { Reads (read_inside nest room) cursor.old result cursor.new }
    ensures shallow { IfOk result (λ read. read.depth ≤ room) }
{
    if nest == 0 {
        return Err(ParseFault::Syntax);
    }
    read_at(cursor, alloc, nest - 1, room, 0)
}

// A call or a column.
#[cycle(expr)]
#[tactic(auto, unfolding(crate::specs::ExprReading::read_named))]
fn named(
    cursor: &mut Cursor,
    alloc: Global,
    nest: usize,
    room: usize,
) -> Result<Operand, ParseFault>
    requires bound { room < 128 }
    ensures read { Reads (read_named nest (read_inside nest room)) cursor.old result cursor.new }
    ensures shallow { IfOk result (λ read. read.depth ≤ suc room) }
{
    let name = cursor.name(alloc)?;
    if cursor.next_is_sign(b"(") {
        call(cursor, alloc, nest, room, name)
    } else {
        Ok(leaf(Expr::Column(name)))
    }
}

// A call, behind its name.
#[cycle(expr)]
#[tactic(auto, unfolding(crate::specs::ExprReading::read_call))]
fn call(
    cursor: &mut Cursor,
    alloc: Global,
    nest: usize,
    room: usize,
    function: Name,
) -> Result<Operand, ParseFault>
    requires bound { room < 128 }
    ensures read { Reads (read_call nest (read_inside nest room) function) cursor.old result cursor.new }
    ensures shallow { IfOk result (λ read. read.depth ≤ suc room) }
{
    opening(cursor, nest)?;
    let list = listed_arguments(cursor, alloc, nest, room, &function)?;
    cursor.sign(b")")?;
    Ok(calling(function, list))
}

// What stands between the parentheses of a call.
#[cycle(expr)]
#[tactic(auto, unfolding(crate::specs::ExprReading::read_arguments))]
fn listed_arguments(
    cursor: &mut Cursor,
    alloc: Global,
    nest: usize,
    room: usize,
    function: &Name,
) -> Result<Arguments, ParseFault>
    requires bound { room < 128 }
    ensures read { Reads (read_arguments (read_inside nest room) function.now) cursor.old result cursor.new }
    ensures shallow { IfOk result (λ read. read.depth ≤ room) }
{
    if cursor.next_is_sign(b")") {
        Ok(no_arguments())
    } else if cursor.next_is_sign(b"*") {
        star(cursor, function)
    } else {
        some(cursor, alloc, nest, room)
    }
}

// One to eight arguments.
#[cycle(expr)]
#[tactic(auto, unfolding(crate::specs::ExprReading::read_some))]
fn some(
    cursor: &mut Cursor,
    alloc: Global,
    nest: usize,
    room: usize,
) -> Result<Arguments, ParseFault>
    requires bound { room < 128 }
    ensures read { Reads (read_some (read_inside nest room)) cursor.old result cursor.new }
    ensures shallow { IfOk result (λ read. read.depth ≤ room) }
{
    let first = inside(cursor, alloc, nest, room)?;
    let rest = more(cursor, alloc, nest, room, 7)?;
    let list = with_argument(alloc, first, rest)?;
    Ok(list)
}

// So many arguments at most, each behind a comma.
#[cycle(expr)]
fn more(
    cursor: &mut Cursor,
    alloc: Global,
    nest: usize,
    room: usize,
    count: usize,
) -> Result<Arguments, ParseFault>
    requires bound { room < 128 }
    ensures read { Reads (read_more (read_inside nest room) count) cursor.old result cursor.new }
    ensures shallow { IfOk result (λ read. read.depth ≤ room) }
{
    if count == 0 {
        return Ok(no_arguments());
    }
    next(cursor, alloc, nest, room, count - 1)
}

// One more argument behind a comma, if one comes next, and so many more behind it.
#[cycle(expr)]
#[tactic(auto, unfolding(crate::specs::ExprReading::read_next))]
fn next(
    cursor: &mut Cursor,
    alloc: Global,
    nest: usize,
    room: usize,
    count: usize,
) -> Result<Arguments, ParseFault>
    requires bound { room < 128 }
    ensures read { Reads (read_next (read_inside nest room) (read_more (read_inside nest room) count)) cursor.old result cursor.new }
    ensures shallow { IfOk result (λ read. read.depth ≤ room) }
{
    if cursor.next_is_sign(b",") {
        cursor.sign(b",")?;
        let first = inside(cursor, alloc, nest, room)?;
        let rest = more(cursor, alloc, nest, room, count)?;
        let list = with_argument(alloc, first, rest)?;
        Ok(list)
    } else {
        Ok(no_arguments())
    }
}

impl<'a> Cursor<'a> {
    /// Reads an expression.
    #[tactic(auto, unfolding(crate::specs::ExprReading::read_expr))]
    pub fn expr(&mut self, alloc: Global) -> Result<Expr, ParseFault>
        ensures { Reads read_expr self.old result self.new }
    {
        let whole = read_at(self, alloc, 128, 128, 0)?;
        Ok(whole.expr)
    }

    /// Reads a literal without a minus.
    #[tactic(auto, unfolding(crate::specs::ExprReading::read_literal))]
    pub fn literal(&mut self, alloc: Global) -> Result<Literal, ParseFault>
        ensures { Reads read_literal self.old result self.new }
    {
        if self.next_is_keyword(b"TRUE") {
            self.keyword(b"TRUE")?;
            Ok(Literal::Truth(true))
        } else if self.next_is_keyword(b"FALSE") {
            self.keyword(b"FALSE")?;
            Ok(Literal::Truth(false))
        } else if self.next_is_quoted() {
            Ok(Literal::Quoted(self.quoted(alloc)?))
        } else {
            let digits = self.whole(alloc)?;
            Ok(Literal::Whole {
                minus: false,
                digits,
            })
        }
    }
}
