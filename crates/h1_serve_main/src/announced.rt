//! An acceptor that tells whether its port is held.
ghost use Rattle.std.specs.Prelude.{◌≡◌};

use h1_link::Acceptor;

/// This acceptor, whose binds are told.
#[derive(Drop)]
pub struct Announced<P, A> {
    messages: P,
    acceptor: A,
}

impl<P, A: Acceptor> Announced<P, A> {
    /// Tells of the binds of this acceptor, on this output.
    pub fn new(messages: P, acceptor: A) -> Self
        ensures { result.acceptor ≡ acceptor }
    {
        Announced { messages, acceptor }
    }
}

impl<P: Print, A: Acceptor> Acceptor for Announced<P, A> {
    type Link = A::Link;

    ghost state = { λ announced. A.state announced.acceptor };

    fn bind(&mut self, port: u16) -> bool {
        let bound = self.acceptor.bind(port);
        // Whether the output takes the line is no matter to the port.
        let _ = if bound {
            println!(self.messages; "listening on port {port}")
        } else {
            println!(self.messages;
                "cannot listen on port {port}: it is taken, or not for this user"
            )
        };
        bound
    }

    fn accept(&mut self) -> Option<A::Link> {
        self.acceptor.accept()
    }

    fn hand_back(&mut self, link: A::Link) {
        self.acceptor.hand_back(link);
    }
}
