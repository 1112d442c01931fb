//! A driver of some length.

/// A serial port with two rings, as such drivers are written.
pub const SERIAL: &str = r#"# 1 "serial.c"
/*
 * A serial port at 0x3f8: a ring of bytes for each direction, a timer that
 * looks after a port that has gone quiet, and a list of pending commands.
 */

struct ring {
  unsigned size;
  unsigned char *count(size) bytes;
  unsigned head;
  unsigned used;
};

struct totals {
  unsigned received;
  unsigned sent;
  unsigned lost;
  unsigned errors;
  unsigned quiet;
};

struct command {
  int kind;
  union {
    int rate when (kind == 0);
    char *nullterm text when (kind == 1);
    struct ring *ring when (kind == 2);
  } what;
  struct command *next;
};

struct port {
  struct ring input;
  struct ring output;
  struct totals totals;
  struct command *first;
  int rate;
  short opened;
  unsigned char registers[8];
};

static struct port port;
static int base = 0x3f8;
static int line_number = 4;
static char escape = '\\';
static unsigned char last_status;
static struct command spare[4];
char *nullterm greeting;

void watch(int rounds);
void received(int line);
static int fill_ring(struct ring *r, unsigned size);
static int put_byte(struct ring *r, int byte);
static int take_byte(struct ring *r);
int send_text(char *nullterm text);

/* Rings. */

static int fill_ring(struct ring *r, unsigned size) {
  unsigned char *bytes;
  if (!r || size == 0u) {
    return -22;
  }
  bytes = kalloc(unsigned char, size);
  if (!bytes)
    return -12;
  r->bytes = (void *)0;
  r->size = size;
  r->bytes = bytes;
  r->head = 0;
  r->used = 0;
  return 0;
}

static void empty_ring(struct ring *r) {
  unsigned char *bytes;
  if (!r)
    return;
  bytes = r->bytes;
  r->bytes = 0;
  r->size = 0;
  r->head = 0;
  r->used = 0;
  kfree(bytes);
}

static int put_byte(struct ring *r, int byte) {
  unsigned place;
  if (!r->bytes) {
    return -12;
  }
  if (r->used >= r->size) {
    port.totals.lost = port.totals.lost + 1;
    return -28;
  }
  place = r->head + r->used;
  while (place >= r->size) {
    place = place - r->size;
  }
  r->bytes[place] = byte & 0xff; // the byte alone
  r->used = r->used + 1;
  return 0;
}

static int take_byte(struct ring *r) {
  int byte;
  if (!r->bytes || r->used == 0)
    return -1;
  byte = r->bytes[r->head];
  r->head = r->head + 1;
  if (r->head == r->size)
    r->head = 0;
  r->used = r->used - 1;
  return byte;
}

/* The registers of the port, counted from its base. */

static int read_register(int number) {
  int value;
  if (number < 0 || number > 7) {
    return -22;
  }
  value = port_in(base + number);
  port.registers[number] = value;
  return value;
}

static void write_register(int number, int value) {
  if (0 <= number && number < 8) {
    port.registers[number] = value;
    port_out(base + number, value);
  } else {
    port.totals.errors = port.totals.errors + 1;
  }
}

static void set_rate(int rate) {
  int divisor;
  if (rate < 50)
    return;
  divisor = 115200 / rate;
  write_register(3, 0x83);
  write_register(0, divisor & 0xff);
  write_register(1, (divisor >> 8) & 0xff);
  write_register(3, 03);
  port.rate = rate;
}

/* Sending and receiving. */

static int is_ready(void) {
  int status;
  status = read_register(5);
  last_status = status;
  return (status & 0x20) != 0;
}

static void pump(int most) {
  int ready;
  int byte;
  ready = is_ready();
  while (ready && most > 0) {
    byte = take_byte(&port.output);
    if (byte < 0) {
      ready = 0;
    } else {
      write_register(0, byte);
      port.totals.sent = port.totals.sent + 1;
      ready = is_ready();
    }
    most = most - 1;
  }
}

void received(int line) {
  int status;
  int byte;
  int answer;
  if (line != line_number) {
    return;
  }
  status = read_register(5);
  if ((status & 0x0e) != 0)
    port.totals.errors = port.totals.errors + 1;
  while ((status & 1) == 1) {
    byte = read_register(0);
    answer = put_byte(&port.input, byte);
    if (answer == 0) {
      port.totals.received = port.totals.received + 1;
      port.totals.quiet = 0;
    }
    status = read_register(5);
  }
  answer = queue_work(pump, 16);
  if (answer < 0) { printd(answer); }
}

int send_text(char *nullterm text) {
  int answer;
  int byte;
  int length;
  length = 0;
  while (text && *text) {
    byte = *text;
    if (byte == escape) {
      answer = put_byte(&port.output, escape);
    }
    answer = put_byte(&port.output, byte);
    if (answer < 0)
      return answer;
    length = length + 1;
    text = text + 1;
  }
  pump(length);
  return length;
}

/* Commands. */

static int push_text(char *nullterm text, int place) {
  struct command *command;
  if (place < 0 || place >= 4) {
    return -22;
  }
  command = &spare[place];
  zero(command->what);
  command->kind = 1;
  command->what.text = text;
  command->next = port.first;
  port.first = command;
  return 0;
}

static void obey(struct command *command) {
  int answer;
  if (!command)
    return;
  if (command->kind == 0) {
    set_rate(command->what.rate);
  } else {
    if (command->kind == 1) {
      answer = send_text(command->what.text);
      printd(answer);
    } else {
      if (command->kind == 2)
        empty_ring(command->what.ring);
      else
        port.totals.errors = port.totals.errors + 1;
    }
  }
}

static void obey_all(int most) {
  struct command *command;
  command = port.first;
  while (command && most > 0) {
    obey(command);
    command = command->next;
    most = most - 1;
  }
  port.first = 0;
}

/* Looks after a port that has gone quiet. */
void watch(int rounds) {
  int answer;
  port.totals.quiet = port.totals.quiet + 1;
  if (port.totals.quiet > 3u) {
    set_rate(port.rate);
    port.totals.quiet = 0;
  }
  if (rounds > 0) {
    answer = set_timer(1, 1000, watch, rounds - 1);
    if (answer < 0)
      printd(answer);
  }
  ;
}

/* What callers may ask. */

int read_byte(void) {
  int byte;
  lock(1);
  byte = take_byte(&port.input);
  unlock(1);
  return byte;
}

unsigned total(int which) {
  if (which == 0) { return port.totals.received; }
  if (which == 1) { return port.totals.sent; }
  if (which == 2) { return port.totals.lost; }
  if (which == 3) { return port.totals.errors; }
  return 0u;
}

int close(void) {
  int answer;
  answer = del_timer(1);
  answer = free_line(line_number);
  if (answer < 0) return answer;
  answer = release_ports(base, 8);
  if (answer < 0) return answer;
  empty_ring(&port.input);
  empty_ring(&port.output);
  port.opened = 0;
  return 0;
}

int init(void) {
  int answer;
  answer = request_ports(base, 8);
  if (answer < 0) return answer;
  answer = fill_ring(&port.input, 64);
  if (answer < 0) return answer;
  answer = fill_ring(&port.output, (unsigned)sizeof(struct ring) * 8 + 0x10);
  if (answer < 0) return answer;
  answer = request_line(line_number, received);
  if (answer < 0) return answer;
  set_rate(9600);
  greeting = "serial\n";
  answer = push_text(greeting, 0);
  obey_all(4);
  answer = set_timer(1, 1000, watch, 100);
  if (answer < 0) return answer;
  port.opened = 1;
  printd(port.rate);
  return 0;
}
"#;
