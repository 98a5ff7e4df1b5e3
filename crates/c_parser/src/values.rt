//! Values: one function for each production of the grammar.
//!
//! What stands in one nest more is reached through the function that parses an operand with its signs,
//! which is a parameter, so that each production is proved by itself.

ghost use Rattle.std.specs.Prelude.{◌≡◌, ◌<◌, ◌^◌, []};
ghost use Rattle.c_lexer.specs.Input.{Reads};
ghost use Rattle.c_parser.specs.Values as spec;
ghost use Rattle.c_parser.specs.Nests.{Nests};

use crate::rooms::push_item;
use crate::signs::{equal_sign, product_sign, rel_sign, sum_sign, unary_sign};
use crate::tree::{
    And, Arms, Compare, Equal, EqualSign, Or, Primary, Product, ProductSign, Rel, Sum, SumSign,
    Target, Unary, UnarySign, Value,
};
use c_lexer::{Piece, Stop, Symbol, Tokens, same_symbol};
use sqlite_items::{Boxed, Items};
use std::alloc::Global;
use suite_base::List;

/// What the productions of values have in common: an allocator, and how an operand is parsed.
#[derive(Clone, Copy)]
pub struct Grammar<F> {
    pub alloc: Global,
    /// Operands are parsed with fewer nests than these to open.
    pub limit: usize,
    /// Parses an operand with its signs, behind those that were read.
    pub unary: F,
}

impl<F: Fn(Global, &mut Tokens<'_>, usize, List<UnarySign>) -> Result<Unary, Stop>> Grammar<F> {
    // An operand with its signs.
    fn unary(&self, tokens: &mut Tokens<'_>, nests: usize) -> Result<Unary, Stop>
        requires room { nests < self.now.limit }
        requires nests { Nests self.now.limit (F.pre self.now.unary) (F.post self.now.unary) }
        ensures { Reads (spec.unary nests (spec.below nests) [] tokens.old) result tokens.new }
    {
        (self.unary)(self.alloc, tokens, nests, List::new(self.alloc))
    }

    // The further operands of a product, each with its sign.
    fn product_rest(
        &self,
        tokens: &mut Tokens<'_>,
        nests: usize,
    ) -> Result<Items<(ProductSign, Unary)>, Stop>
        requires room { nests < self.now.limit }
        requires nests { Nests self.now.limit (F.pre self.now.unary) (F.post self.now.unary) }
        ensures { Reads (spec.product_rest nests (spec.below nests) tokens.old) result tokens.new }
    {
        let mut rest = Items::new(self.alloc);
        for _turn in 0..tokens.left() {
            let Some(sign) = product_sign(tokens.peek()) else {
                return Ok(rest);
            };
            tokens.take();
            let item = self.unary(tokens, nests)?;
            push_item(self.alloc, &mut rest, (sign, item))?;
        }
        Err(tokens.refuse())
    }

    // Operands joined by `*`, `/` and `%`.
    #[tactic(auto, unfolding(crate::specs::Values::product))]
    fn product(&self, tokens: &mut Tokens<'_>, nests: usize) -> Result<Product, Stop>
        requires room { nests < self.now.limit }
        requires nests { Nests self.now.limit (F.pre self.now.unary) (F.post self.now.unary) }
        ensures { Reads (spec.product nests (spec.below nests) tokens.old) result tokens.new }
    {
        let first = self.unary(tokens, nests)?;
        let rest = self.product_rest(tokens, nests)?;
        Ok(Product { first, rest })
    }

    // The further products of a sum, each with its sign.
    fn sum_rest(
        &self,
        tokens: &mut Tokens<'_>,
        nests: usize,
    ) -> Result<Items<(SumSign, Product)>, Stop>
        requires room { nests < self.now.limit }
        requires nests { Nests self.now.limit (F.pre self.now.unary) (F.post self.now.unary) }
        ensures { Reads (spec.sum_rest nests (spec.below nests) tokens.old) result tokens.new }
    {
        let mut rest = Items::new(self.alloc);
        for _turn in 0..tokens.left() {
            let Some(sign) = sum_sign(tokens.peek()) else {
                return Ok(rest);
            };
            tokens.take();
            let item = self.product(tokens, nests)?;
            push_item(self.alloc, &mut rest, (sign, item))?;
        }
        Err(tokens.refuse())
    }

    /// Products joined by `+` and `-`.
    #[tactic(auto, unfolding(crate::specs::Values::sum))]
    pub fn sum(&self, tokens: &mut Tokens<'_>, nests: usize) -> Result<Sum, Stop>
        requires room { nests < self.now.limit }
        requires nests { Nests self.now.limit (F.pre self.now.unary) (F.post self.now.unary) }
        ensures { Reads (spec.sum nests (spec.below nests) tokens.old) result tokens.new }
    {
        let at = tokens.position();
        let first = self.product(tokens, nests)?;
        let rest = self.sum_rest(tokens, nests)?;
        Ok(Sum { at, first, rest })
    }

    // The further sums of a comparison, each with its sign.
    fn compare_rest(&self, tokens: &mut Tokens<'_>, nests: usize) -> Result<Items<(Rel, Sum)>, Stop>
        requires room { nests < self.now.limit }
        requires nests { Nests self.now.limit (F.pre self.now.unary) (F.post self.now.unary) }
        ensures { Reads (spec.compare_rest nests (spec.below nests) tokens.old) result tokens.new }
    {
        let mut rest = Items::new(self.alloc);
        for _turn in 0..tokens.left() {
            let Some(sign) = rel_sign(tokens.peek()) else {
                return Ok(rest);
            };
            tokens.take();
            let item = self.sum(tokens, nests)?;
            push_item(self.alloc, &mut rest, (sign, item))?;
        }
        Err(tokens.refuse())
    }

    // Sums joined by `<`, `<=`, `>` and `>=`.
    #[tactic(auto, unfolding(crate::specs::Values::compare))]
    fn compare(&self, tokens: &mut Tokens<'_>, nests: usize) -> Result<Compare, Stop>
        requires room { nests < self.now.limit }
        requires nests { Nests self.now.limit (F.pre self.now.unary) (F.post self.now.unary) }
        ensures { Reads (spec.compare nests (spec.below nests) tokens.old) result tokens.new }
    {
        let first = self.sum(tokens, nests)?;
        let rest = self.compare_rest(tokens, nests)?;
        Ok(Compare { first, rest })
    }

    // The further comparisons of an equality, each with its sign.
    fn equal_rest(
        &self,
        tokens: &mut Tokens<'_>,
        nests: usize,
    ) -> Result<Items<(EqualSign, Compare)>, Stop>
        requires room { nests < self.now.limit }
        requires nests { Nests self.now.limit (F.pre self.now.unary) (F.post self.now.unary) }
        ensures { Reads (spec.equal_rest nests (spec.below nests) tokens.old) result tokens.new }
    {
        let mut rest = Items::new(self.alloc);
        for _turn in 0..tokens.left() {
            let Some(sign) = equal_sign(tokens.peek()) else {
                return Ok(rest);
            };
            tokens.take();
            let item = self.compare(tokens, nests)?;
            push_item(self.alloc, &mut rest, (sign, item))?;
        }
        Err(tokens.refuse())
    }

    // Comparisons joined by `==` and `!=`.
    #[tactic(auto, unfolding(crate::specs::Values::equal))]
    fn equal(&self, tokens: &mut Tokens<'_>, nests: usize) -> Result<Equal, Stop>
        requires room { nests < self.now.limit }
        requires nests { Nests self.now.limit (F.pre self.now.unary) (F.post self.now.unary) }
        ensures { Reads (spec.equal nests (spec.below nests) tokens.old) result tokens.new }
    {
        let first = self.compare(tokens, nests)?;
        let rest = self.equal_rest(tokens, nests)?;
        Ok(Equal { first, rest })
    }

    // Equalities joined by `&&`.
    #[tactic(auto, unfolding(crate::specs::Values::and_value))]
    fn and_value(&self, tokens: &mut Tokens<'_>, nests: usize) -> Result<And, Stop>
        requires room { nests < self.now.limit }
        requires nests { Nests self.now.limit (F.pre self.now.unary) (F.post self.now.unary) }
        ensures { Reads (spec.and_value nests (spec.below nests) tokens.old) result tokens.new }
    {
        let items = self.and_value_items(tokens, nests)?;
        Ok(And { items })
    }

    // The equalities that `&&` joins.
    fn and_value_items(&self, tokens: &mut Tokens<'_>, nests: usize) -> Result<Items<Equal>, Stop>
        requires room { nests < self.now.limit }
        requires nests { Nests self.now.limit (F.pre self.now.unary) (F.post self.now.unary) }
        ensures { Reads (spec.separated Symbol.And (spec.equal nests (spec.below nests)) tokens.old) result tokens.new }
    {
        let mut items = Items::new(self.alloc);
        for _turn in 0..tokens.left() {
            let item = self.equal(tokens, nests)?;
            push_item(self.alloc, &mut items, item)?;
            if !tokens.eat(Symbol::And) {
                return Ok(items);
            }
        }
        Err(tokens.refuse())
    }

    // What `||` joins.
    #[tactic(auto, unfolding(crate::specs::Values::or_value))]
    fn or_value(&self, tokens: &mut Tokens<'_>, nests: usize) -> Result<Or, Stop>
        requires room { nests < self.now.limit }
        requires nests { Nests self.now.limit (F.pre self.now.unary) (F.post self.now.unary) }
        ensures { Reads (spec.or_value nests (spec.below nests) tokens.old) result tokens.new }
    {
        let items = self.or_value_items(tokens, nests)?;
        Ok(Or { items })
    }

    // The members that `||` joins.
    fn or_value_items(&self, tokens: &mut Tokens<'_>, nests: usize) -> Result<Items<And>, Stop>
        requires room { nests < self.now.limit }
        requires nests { Nests self.now.limit (F.pre self.now.unary) (F.post self.now.unary) }
        ensures { Reads (spec.separated Symbol.Or (spec.and_value nests (spec.below nests)) tokens.old) result tokens.new }
    {
        let mut items = Items::new(self.alloc);
        for _turn in 0..tokens.left() {
            let item = self.and_value(tokens, nests)?;
            push_item(self.alloc, &mut items, item)?;
            if !tokens.eat(Symbol::Or) {
                return Ok(items);
            }
        }
        Err(tokens.refuse())
    }

    // A value behind `?` or `:`, in one nest more.
    #[cycle(value)]
    fn arm(&self, tokens: &mut Tokens<'_>, nests: usize) -> Result<Value, Stop>
        requires some { 0 < nests }
        requires room { nests < self.now.limit }
        requires nests { Nests self.now.limit (F.pre self.now.unary) (F.post self.now.unary) }
        ensures { Reads ((spec.below nests).value tokens.old) result tokens.new }
    {
        self.value(tokens, nests - 1)
    }

    // The two values behind `?`, where there is one.
    #[tactic(auto, unfolding(crate::specs::Values::arms))]
    #[cycle(value)]
    fn arms(&self, tokens: &mut Tokens<'_>, nests: usize) -> Result<Option<Boxed<Arms>>, Stop>
        requires room { nests < self.now.limit }
        requires nests { Nests self.now.limit (F.pre self.now.unary) (F.post self.now.unary) }
        ensures { Reads (spec.arms nests (spec.below nests) tokens.old) result tokens.new }
    {
        if !same_symbol(tokens.peek(), Symbol::Question) {
            return Ok(None);
        }
        tokens.open_nest(nests)?;
        tokens.take();
        let yes = self.arm(tokens, nests)?;
        tokens.expect(Symbol::Colon)?;
        let no = self.arm(tokens, nests)?;
        Ok(Some(Boxed::new(self.alloc, Arms { yes, no })?))
    }

    /// A whole value: what `||` joins, and the two values behind `?` where there is one.
    #[tactic(auto, unfolding(crate::specs::Values::value))]
    #[cycle(value)]
    pub fn value(&self, tokens: &mut Tokens<'_>, nests: usize) -> Result<Value, Stop>
        requires room { nests < self.now.limit }
        requires nests { Nests self.now.limit (F.pre self.now.unary) (F.post self.now.unary) }
        ensures { Reads (spec.value nests (spec.below nests) tokens.old) result tokens.new }
    {
        let at = tokens.position();
        let test = self.or_value(tokens, nests)?;
        let arms = self.arms(tokens, nests)?;
        Ok(Value { at, test, arms })
    }

    // A value in one nest more.
    fn inner_value(&self, tokens: &mut Tokens<'_>) -> Result<Value, Stop>
        requires some { 0 < self.now.limit }
        requires nests { Nests self.now.limit (F.pre self.now.unary) (F.post self.now.unary) }
        ensures { Reads ((spec.below self.now.limit).value tokens.old) result tokens.new }
    {
        self.value(tokens, self.limit - 1)
    }

    // A sum in one nest more.
    fn inner_sum(&self, tokens: &mut Tokens<'_>) -> Result<Sum, Stop>
        requires some { 0 < self.now.limit }
        requires nests { Nests self.now.limit (F.pre self.now.unary) (F.post self.now.unary) }
        ensures { Reads ((spec.below self.now.limit).sum tokens.old) result tokens.new }
    {
        self.sum(tokens, self.limit - 1)
    }

    // A sum in square brackets.
    #[tactic(auto, unfolding(crate::specs::Values::subscript))]
    fn subscript(&self, tokens: &mut Tokens<'_>) -> Result<Sum, Stop>
        requires { Nests self.now.limit (F.pre self.now.unary) (F.post self.now.unary) }
        ensures { Reads (spec.subscript self.now.limit (spec.below self.now.limit) tokens.old) result tokens.new }
    {
        tokens.open_nest(self.limit)?;
        tokens.take();
        let sum = self.inner_sum(tokens)?;
        tokens.expect(Symbol::CloseSquare)?;
        Ok(sum)
    }

    // All subscripts that follow a name.
    fn subscripts(&self, tokens: &mut Tokens<'_>) -> Result<Items<Sum>, Stop>
        requires { Nests self.now.limit (F.pre self.now.unary) (F.post self.now.unary) }
        ensures { Reads (spec.subscripts self.now.limit (spec.below self.now.limit) tokens.old) result tokens.new }
    {
        let mut found = Items::new(self.alloc);
        for _turn in 0..tokens.left() {
            if !same_symbol(tokens.peek(), Symbol::OpenSquare) {
                return Ok(found);
            }
            let sum = self.subscript(tokens)?;
            push_item(self.alloc, &mut found, sum)?;
        }
        Err(tokens.refuse())
    }

    /// A name with its subscripts.
    #[tactic(auto, unfolding(crate::specs::Values::target))]
    pub fn target(&self, tokens: &mut Tokens<'_>) -> Result<Target, Stop>
        requires { Nests self.now.limit (F.pre self.now.unary) (F.post self.now.unary) }
        ensures { Reads (spec.target self.now.limit (spec.below self.now.limit) tokens.old) result tokens.new }
    {
        let name = tokens.expect(Symbol::Name)?;
        let subscripts = self.subscripts(tokens)?;
        Ok(Target { name, subscripts })
    }

    // The arguments of a call, of which there is one at least.
    fn argument_items(&self, tokens: &mut Tokens<'_>) -> Result<Items<Value>, Stop>
        requires some { 0 < self.now.limit }
        requires nests { Nests self.now.limit (F.pre self.now.unary) (F.post self.now.unary) }
        ensures { Reads (spec.separated Symbol.Comma (spec.below self.now.limit).value tokens.old) result tokens.new }
    {
        let mut items = Items::new(self.alloc);
        for _turn in 0..tokens.left() {
            let item = self.inner_value(tokens)?;
            push_item(self.alloc, &mut items, item)?;
            if !tokens.eat(Symbol::Comma) {
                return Ok(items);
            }
        }
        Err(tokens.refuse())
    }

    // The arguments of a call, and its closing bracket.
    #[tactic(auto, unfolding(crate::specs::Values::arguments))]
    fn arguments(&self, tokens: &mut Tokens<'_>) -> Result<Items<Value>, Stop>
        requires some { 0 < self.now.limit }
        requires nests { Nests self.now.limit (F.pre self.now.unary) (F.post self.now.unary) }
        ensures { Reads (spec.arguments self.now.limit (spec.below self.now.limit) tokens.old) result tokens.new }
    {
        if tokens.eat(Symbol::CloseRound) {
            return Ok(Items::new(self.alloc));
        }
        let found = self.argument_items(tokens)?;
        tokens.expect(Symbol::CloseRound)?;
        Ok(found)
    }

    // A call of this name, from its bracket on.
    #[tactic(auto, unfolding(crate::specs::Values::call))]
    fn call(&self, tokens: &mut Tokens<'_>, name: Piece) -> Result<Primary, Stop>
        requires { Nests self.now.limit (F.pre self.now.unary) (F.post self.now.unary) }
        ensures { Reads (spec.call self.now.limit (spec.below self.now.limit) name tokens.old) result tokens.new }
    {
        tokens.open_nest(self.limit)?;
        tokens.take();
        let found = self.arguments(tokens)?;
        Ok(Primary::Call(name, found))
    }

    // A call, or a name with its subscripts.
    #[tactic(auto, unfolding(crate::specs::Values::named))]
    fn named(&self, tokens: &mut Tokens<'_>) -> Result<Primary, Stop>
        requires { Nests self.now.limit (F.pre self.now.unary) (F.post self.now.unary) }
        ensures { Reads (spec.named self.now.limit (spec.below self.now.limit) tokens.old) result tokens.new }
    {
        let name = tokens.take();
        if same_symbol(tokens.peek(), Symbol::OpenRound) {
            return self.call(tokens, name);
        }
        let subscripts = self.subscripts(tokens)?;
        Ok(Primary::Target(Target { name, subscripts }))
    }

    // A call of `max`, `min`, `ceild` or `floord`.
    #[tactic(auto, unfolding(crate::specs::Values::operator))]
    fn operator(&self, tokens: &mut Tokens<'_>) -> Result<Primary, Stop>
        requires { Nests self.now.limit (F.pre self.now.unary) (F.post self.now.unary) }
        ensures { Reads (spec.operator self.now.limit (spec.below self.now.limit) tokens.old) result tokens.new }
    {
        let name = tokens.take();
        if same_symbol(tokens.peek(), Symbol::OpenRound) {
            self.call(tokens, name)
        } else {
            Err(tokens.refuse())
        }
    }

    // A value in round brackets.
    #[tactic(auto, unfolding(crate::specs::Values::bracket))]
    fn bracket(&self, tokens: &mut Tokens<'_>) -> Result<Primary, Stop>
        requires { Nests self.now.limit (F.pre self.now.unary) (F.post self.now.unary) }
        ensures { Reads (spec.bracket self.now.limit (spec.below self.now.limit) tokens.old) result tokens.new }
    {
        tokens.open_nest(self.limit)?;
        tokens.take();
        let value = self.inner_value(tokens)?;
        tokens.expect(Symbol::CloseRound)?;
        Ok(Primary::Bracket(Boxed::new(self.alloc, value)?))
    }

    // A number, a call, a name with its subscripts, or a value in brackets.
    #[tactic(auto, unfolding(crate::specs::Values::primary))]
    fn primary(&self, tokens: &mut Tokens<'_>) -> Result<Primary, Stop>
        requires { Nests self.now.limit (F.pre self.now.unary) (F.post self.now.unary) }
        ensures { Reads (spec.primary self.now.limit (spec.below self.now.limit) tokens.old) result tokens.new }
    {
        match tokens.peek() {
            Symbol::Integer => Ok(Primary::Integer(tokens.take())),
            Symbol::Literal => Ok(Primary::Literal(tokens.take())),
            Symbol::Name => self.named(tokens),
            Symbol::Operator => self.operator(tokens),
            Symbol::OpenRound => self.bracket(tokens),
            _ => Err(tokens.refuse()),
        }
    }

    // An operand behind these signs.
    #[tactic(auto, unfolding(crate::specs::Values::operand))]
    fn operand(&self, tokens: &mut Tokens<'_>, signs: List<UnarySign>) -> Result<Unary, Stop>
        requires { Nests self.now.limit (F.pre self.now.unary) (F.post self.now.unary) }
        ensures { Reads (spec.operand self.now.limit (spec.below self.now.limit) signs tokens.old) result tokens.new }
    {
        let primary = self.primary(tokens)?;
        Ok(Unary { signs, primary })
    }
}

/// An operand with its signs, behind those that were read, with so many nests to open.
#[tactic(auto, unfolding(crate::specs::Values::unary))]
pub fn unary(
    alloc: Global,
    tokens: &mut Tokens<'_>,
    nests: usize,
    signs: List<UnarySign>,
) -> Result<Unary, Stop>
    ensures { Reads (spec.unary nests (spec.below nests) signs tokens.old) result tokens.new }
{
    let Some(sign) = unary_sign(tokens.peek()) else {
        let grammar = Grammar {
            alloc,
            limit: nests,
            unary,
        };
        return grammar.operand(tokens, signs);
    };
    tokens.open_nest(nests)?;
    tokens.take();
    let mut signs = signs;
    signs.push(sign)?;
    unary(alloc, tokens, nests - 1, signs)
}

/// A value with so many nests to open.
pub fn value(alloc: Global, tokens: &mut Tokens<'_>, nests: usize) -> Result<Value, Stop>
    requires { nests < 2 ^ 32 }
    ensures { Reads (spec.value nests (spec.below nests) tokens.old) result tokens.new }
{
    let grammar = Grammar {
        alloc,
        limit: nests + 1,
        unary,
    };
    grammar.value(tokens, nests)
}

/// A value in one nest more.
pub fn inner_value(alloc: Global, tokens: &mut Tokens<'_>, nests: usize) -> Result<Value, Stop>
    requires { 0 < nests }
    ensures { Reads ((spec.below nests).value tokens.old) result tokens.new }
{
    let grammar = Grammar {
        alloc,
        limit: nests,
        unary,
    };
    grammar.inner_value(tokens)
}

/// A sum in one nest more.
pub fn inner_sum(alloc: Global, tokens: &mut Tokens<'_>, nests: usize) -> Result<Sum, Stop>
    requires { 0 < nests }
    ensures { Reads ((spec.below nests).sum tokens.old) result tokens.new }
{
    let grammar = Grammar {
        alloc,
        limit: nests,
        unary,
    };
    grammar.inner_sum(tokens)
}

/// A name with its subscripts, with so many nests to open.
pub fn target(alloc: Global, tokens: &mut Tokens<'_>, nests: usize) -> Result<Target, Stop>
    ensures { Reads (spec.target nests (spec.below nests) tokens.old) result tokens.new }
{
    let grammar = Grammar {
        alloc,
        limit: nests,
        unary,
    };
    grammar.target(tokens)
}
