// Tests of the reading of scripts.
#![tactic(auto)]

#[cfg(test)]
mod tests {
    use script::{Fault, Order, parse, spelled_bytes};
    use std::test::Fail;

    // A line of each command, an empty line and a comment.
    const EVERY_COMMAND: &str = "key key=00\n\
        op op=01 name=X\n\
        opc opc=02\n\
        constants constants=03\n\
        network number=00\n\
        card number=00\n\
        layers a=01 b=02 first=03 second=04\n\
        sizes rand=16 sqn=6 mac=8 res=8 ck=16 ik=16 mask=f5*\n\
        \n\
        # a comment\n\
        challenge rand=00 amf=8000 room=3 scratch=4\n\
        receive rand=last autn=00\n\
        confirm ticket=1 res=last\n\
        resync ticket=2 auts=last scratch=96\n\
        lapse ticket=3\n\
        trace end=card index=7 rand=00 size=6 carried=0000\n";

    // The number of the line that cannot be read, if there is one.
    fn bad_line(read: Result<Vec<Order>, Fault>) -> Option<usize> {
        read.err().map(|fault| fault.line)
    }

    #[test]
    fn digits_small_and_capital(rt: HostRuntime) -> Result<(), Fail> {
        let Some(bytes) = spelled_bytes(rt.alloc(), b"00fFaB")? else {
            return Err(Fail::new("no bytes"));
        };
        assert!(rt; bytes.len() == 3);
        assert_eq!(rt; bytes[1], 255);
        assert_eq!(rt; bytes[2], 0xab);
        assert!(rt; spelled_bytes(rt.alloc(), b"0")?.is_none());
        assert!(rt; spelled_bytes(rt.alloc(), b"0g")?.is_none());
        Ok(())
    }

    #[test]
    fn every_command_is_read(rt: HostRuntime) -> Result<(), Fail> {
        let orders = parse(rt.alloc(), EVERY_COMMAND)?;
        assert_eq!(rt; orders.len(), 14);
        Ok(())
    }

    #[test]
    fn a_bad_line_is_named(rt: HostRuntime) {
        for (text, line) in [
            ("key key=00\nkeys key=00\n", 2),
            ("key key=0\n", 1),
            ("lapse ticket=1\nlapse\n", 2),
            ("lapse ticket=x\n", 1),
            ("lapse ticket=1 ticket=2\n", 1),
            ("lapse ticket=1 res=00\n", 1),
            ("challenge rand=00\n", 1),
            ("trace end=both index=0 rand=00 size=8\n", 1),
        ] {
            assert_eq!(rt; bad_line(parse(rt.alloc(), text)), Some(line));
        }
    }

    // What a line that cannot be read is told.
    fn told(rt: &HostRuntime, text: &str) -> Result<String, Fail> {
        match parse(rt.alloc(), text) {
            Ok(_) => Err(Fail::new("the script is read")),
            Err(fault) => Ok(format!(in rt.alloc(); "{fault}")?),
        }
    }

    #[test]
    fn a_bad_line_is_told(rt: HostRuntime) -> Result<(), Fail> {
        for (text, want) in [
            (
                "keys",
                "line 1: expected key, layers, op, opc, constants, sizes, network, card, challenge, receive, confirm, resync, lapse or trace",
            ),
            (
                "lapse ticket=1 ticket=1",
                "line 1: expected fields of this command as name=value, each once",
            ),
            ("\nlapse", "line 2: expected the field ticket="),
            (
                "key key=0g",
                "line 1: expected hexadecimal digits, two to a byte, in key=",
            ),
            ("lapse ticket=x", "line 1: expected a number in ticket="),
        ] {
            assert_eq!(rt; told(&rt, text)?.as_str(), want);
        }
        Ok(())
    }
}
